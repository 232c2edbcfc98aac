//! Recordings as texts.

/// A header whose limits are high enough for the steps below.
pub const HEADER: &str = "{\"netrev\":1,\"gor\":4,\"sock\":2,\"desc\":2,\"buf\":16}\n";

/// A goroutine waits for bytes at a socket, is woken by an event and reads them: twelve steps.
pub const WAITS: &str = r#"["sockopen",16,16]
["pollopen",0,0]
["rwlock",0,0,"r"]
["waitbegin",0,0,"r"]
["blockarm",0]
["blockcheck",0]
["parkcommit",0]
["arrive",0,"6869"]
["pollevent",0,1,"r",0]
["blockswap",0]
["sysread",0,0,8]
["rwunlock",0,0,"r"]
"#;

/// Two goroutines take a lock in turn.
pub const TAKES_TURNS: &str = r#"["spawn"]
["sockopen",16,16]
["rwlock",0,0,"r"]
["rwlock",1,0,"r"]
["acquire",1]
["rwunlock",0,0,"r"]
["release",0]
["rwlock",0,0,"r"]
["acquire",1]
["rwlock",1,0,"r"]
"#;

/// A socket is closed while a goroutine waits for its lock.
pub const CLOSES: &str = r#"["spawn"]
["spawn"]
["sockopen",16,16]
["incref",0,0]
["rwlock",0,0,"r"]
["rwlock",1,0,"r"]
["rwunlock",0,0,"r"]
["increfclose",2,0]
["decref",2,0]
["exit",2]
"#;
