//! The changes to a list, and how they are made.

ghost use Rattle.std.specs.Prelude.{◌≡◌, ◌≤◌, length};
ghost use Rattle.nr_plain.specs.ListEdit.{CanEditList, after_list_edit};

use nr_rev::RoomedList;

/// A change to a list.
#[derive(Clone, Copy)]
pub(crate) enum ListEdit<'a, T> {
    /// Appends items.
    Extend(&'a [T]),
    /// Prepends items.
    ExtendFront(&'a [T]),
    /// Removes this many items from the front, or all items if the list has fewer.
    DropFront(usize),
    /// Keeps this many items at the front, or all items if the list has fewer.
    Truncate(usize),
}

/// Makes a change to a list.
pub(crate) fn edit_list<T: Copy + Drop>(list: &mut RoomedList<T>, edit: ListEdit<T>)
    requires { CanEditList list.old.room edit list.old.items }
    ensures after { list.new ≡ record list.old {
      items = after_list_edit edit.entry list.old.items;
    } }
    ensures short { length list.old.items ≤ list.old.room }
{
    match edit {
        ListEdit::Extend(items) => list.extend(items),
        ListEdit::ExtendFront(items) => list.extend_front(items),
        ListEdit::DropFront(count) => list.drop_front(count),
        ListEdit::Truncate(count) => list.truncate(count),
    }
}
