//! Texts of steps, and a script.

/// Prints locks while moving both ways over `CLOSES`.
pub(crate) const SCRIPT: &str = "stepi 6
print lock 0
print gor 1
stepi 4
print lock 0
print gor 2
reverse-stepi 2
print lock 0
reverse-stepi 4
print lock 0
reverse-stepi 9
print lock 0
";

/// The replies to that script.
pub(crate) const REPLIES: &str = "at 6
lock 0 = 8388626
gor 1 = acquiring 0 r
at 10
lock 0 = 9
gor 2 = gone
at 8
lock 0 = 17
at 4
lock 0 = 8
at 0 start
lock 0 = absent
";

/// An event comes between a reader's check and its parking.
pub(crate) const EARLY: &str = r#"["sockopen",16,16]
["pollopen",0,0]
["rwlock",0,0,"r"]
["waitbegin",0,0,"r"]
["blockarm",0]
["blockcheck",0]
["pollevent",0,1,"r",0]
["parkcommit",0]
["blockswap",0]
"#;

/// A write side is shut between two writes, and the bytes of the first write are drained.
pub(crate) const SHUTS: &str = "[\"sockopen\",1048576,4,[\"number\",0]]
[\"syswrite\",0,0,\"6869\",[\"put\",2]]
[\"closewrite\",0,0,\"done\"]
[\"syswrite\",0,0,\"6869\",\"pipe\"]
[\"drain\",0,2,\"done\"]
";

pub(crate) const SHUTS_HEADER: &str =
    "{\"buf\":1048576,\"desc\":1,\"gor\":1,\"netrev\":2,\"sock\":1}\n";
