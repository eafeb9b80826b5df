//! Locks that are held, run out and are taken over, and lines that drain.

pub(crate) fn lock_rows() -> &'static str {
    r#"
# a lock that ran out is taken over
$ run
< {"do":"doc","doc":"a","project":"p","text":"abc"}
< {"as":"w","do":"raw","doc":"a","op":[{"i":"X","p":1}],"source":1,"user":"u","v":0}
< {"as":"h1","do":"hold","doc":"a"}
< {"as":"t","do":"tick","ms":29999}
< {"as":"h2","do":"hold","doc":"a"}
< {"as":"t","do":"tick","ms":1}
< {"as":"h2","do":"hold","doc":"a"}
< {"as":"h2","do":"finish"}
< {"as":"h1","do":"finish"}
> {"b":0,"base":0,"doc":0,"e":"made","line":1,"n":0,"name":"a","project":"p","seat":0,"text":"abc"}
> {"b":0,"client":null,"doc":0,"dup":[],"e":"sent","line":2,"ms":0,"n":1,"number":0,"op":[{"i":"X","p":1}],"seat":0,"source":1,"track":false,"user":"u","v":0}
> {"b":0,"doc":0,"e":"acquired","line":3,"n":2,"seat":0,"token":1,"until":30000}
> {"b":0,"e":"ticked","line":4,"ms":29999,"n":3,"seat":0}
> {"b":0,"e":"declined","line":5,"n":4,"seat":0,"session":3,"token":1,"until":30000,"why":"busy"}
> {"b":0,"e":"ticked","line":6,"ms":1,"n":5,"seat":0}
> {"b":0,"doc":0,"e":"acquired","line":7,"n":6,"seat":0,"token":2,"until":60000}
> {"b":0,"doc":0,"e":"committed","line":8,"n":7,"op":[{"i":"X","p":1}],"out":"applied","seat":0,"ticket":1,"token":2,"v":0}
> {"b":0,"doc":0,"e":"released","line":8,"n":8,"seat":0,"token":2}
> {"b":0,"e":"declined","line":9,"n":9,"seat":0,"session":1,"token":2,"why":"stale"}
> {"b":0,"driver":0,"e":"closed","line":null,"n":10,"seat":0}
> {"b":0,"e":"ticked","line":null,"ms":30000,"n":11,"seat":0}
> {"b":0,"doc":0,"e":"acquired","line":null,"n":12,"seat":0,"token":3,"until":90000}
> {"b":0,"doc":0,"e":"flushed","line":null,"n":13,"seat":0,"token":3,"v":1}
> {"b":0,"doc":0,"e":"released","line":null,"n":14,"seat":0,"token":3}
> {"b":0,"changes":[],"comments":[],"doc":0,"e":"doc","kept":1,"name":"a","text":"aXbc","v":1}
> {"b":0,"e":"project","handed":0,"left":1,"project":"p"}

# holding and finishing nothing, draining nothing, and a lock that others run into
$ run
< {"do":"doc","doc":"a","project":"p","text":""}
< {"as":"s","do":"finish"}
< {"as":"s","do":"hold","doc":"b"}
< {"as":"s","do":"hold","doc":"a"}
< {"as":"s","do":"drain","doc":"a"}
< {"as":"s","do":"drain","doc":"b"}
< {"as":"w","do":"raw","doc":"a","op":[{"i":"X","p":0}],"source":1,"user":"u","v":0}
< {"as":"s","do":"hold","doc":"a"}
< {"as":"s","do":"hold","doc":"b"}
< {"as":"w","do":"drain","doc":"a"}
< {"as":"s","do":"finish"}
> {"b":0,"base":0,"doc":0,"e":"made","line":1,"n":0,"name":"a","project":"p","seat":0,"text":""}
> {"b":0,"e":"declined","line":2,"n":1,"seat":0,"session":0,"why":"nothing"}
> {"b":0,"e":"declined","line":3,"n":2,"seat":0,"session":0,"why":"no-doc"}
> {"b":0,"e":"declined","line":4,"n":3,"seat":0,"session":0,"why":"empty"}
> {"b":0,"e":"declined","line":5,"n":4,"seat":0,"session":0,"why":"empty"}
> {"b":0,"e":"declined","line":6,"n":5,"seat":0,"session":0,"why":"no-doc"}
> {"b":0,"client":null,"doc":0,"dup":[],"e":"sent","line":7,"ms":0,"n":6,"number":0,"op":[{"i":"X","p":0}],"seat":0,"source":1,"track":false,"user":"u","v":0}
> {"b":0,"doc":0,"e":"acquired","line":8,"n":7,"seat":0,"token":1,"until":30000}
> {"b":0,"e":"declined","line":9,"n":8,"seat":0,"session":0,"why":"holding"}
> {"b":0,"e":"declined","line":10,"n":9,"seat":0,"session":1,"token":1,"until":30000,"why":"busy"}
> {"b":0,"doc":0,"e":"committed","line":11,"n":10,"op":[{"i":"X","p":0}],"out":"applied","seat":0,"ticket":6,"token":1,"v":0}
> {"b":0,"doc":0,"e":"released","line":11,"n":11,"seat":0,"token":1}
> {"b":0,"driver":0,"e":"closed","line":null,"n":12,"seat":0}
> {"b":0,"e":"ticked","line":null,"ms":30000,"n":13,"seat":0}
> {"b":0,"doc":0,"e":"acquired","line":null,"n":14,"seat":0,"token":2,"until":60000}
> {"b":0,"doc":0,"e":"flushed","line":null,"n":15,"seat":0,"token":2,"v":1}
> {"b":0,"doc":0,"e":"released","line":null,"n":16,"seat":0,"token":2}
> {"b":0,"changes":[],"comments":[],"doc":0,"e":"doc","kept":1,"name":"a","text":"X","v":1}
> {"b":0,"e":"project","handed":0,"left":1,"project":"p"}

# a line drains both that wait, in the order in which they were sent
$ run
< {"do":"doc","doc":"a","project":"p","text":""}
< {"as":"w","do":"raw","doc":"a","op":[{"i":"X","p":0}],"source":1,"user":"u","v":0}
< {"as":"w","do":"raw","doc":"a","op":[{"i":"Y","p":1}],"source":2,"user":"u","v":1}
< {"as":"w","do":"drain","doc":"a"}
> {"b":0,"base":0,"doc":0,"e":"made","line":1,"n":0,"name":"a","project":"p","seat":0,"text":""}
> {"b":0,"client":null,"doc":0,"dup":[],"e":"sent","line":2,"ms":0,"n":1,"number":0,"op":[{"i":"X","p":0}],"seat":0,"source":1,"track":false,"user":"u","v":0}
> {"b":0,"client":null,"doc":0,"dup":[],"e":"sent","line":3,"ms":0,"n":2,"number":0,"op":[{"i":"Y","p":1}],"seat":0,"source":2,"track":false,"user":"u","v":1}
> {"b":0,"doc":0,"e":"acquired","line":4,"n":3,"seat":0,"token":1,"until":30000}
> {"b":0,"doc":0,"e":"committed","line":4,"n":4,"op":[{"i":"X","p":0}],"out":"applied","seat":0,"ticket":1,"token":1,"v":0}
> {"b":0,"doc":0,"e":"released","line":4,"n":5,"seat":0,"token":1}
> {"b":0,"doc":0,"e":"acquired","line":4,"n":6,"seat":0,"token":2,"until":30000}
> {"b":0,"doc":0,"e":"committed","line":4,"n":7,"op":[{"i":"Y","p":1}],"out":"applied","seat":0,"ticket":2,"token":2,"v":1}
> {"b":0,"doc":0,"e":"released","line":4,"n":8,"seat":0,"token":2}
> {"b":0,"driver":0,"e":"closed","line":null,"n":9,"seat":0}
> {"b":0,"e":"ticked","line":null,"ms":30000,"n":10,"seat":0}
> {"b":0,"doc":0,"e":"acquired","line":null,"n":11,"seat":0,"token":3,"until":60000}
> {"b":0,"doc":0,"e":"flushed","line":null,"n":12,"seat":0,"token":3,"v":2}
> {"b":0,"doc":0,"e":"released","line":null,"n":13,"seat":0,"token":3}
> {"b":0,"changes":[],"comments":[],"doc":0,"e":"doc","kept":2,"name":"a","text":"XY","v":2}
> {"b":0,"e":"project","handed":0,"left":2,"project":"p"}
"#
}
