//! Documents that are put into the keeper.

pub(crate) fn keeper_rows() -> &'static str {
    r#"
# flushed at its version
$ run
< {"do":"doc","doc":"a","project":"p","text":"abc"}
< {"do":"raw","as":"w","doc":"a","user":"u","source":1,"v":0,"op":[{"i":"X","p":1}]}
< {"do":"drain","as":"w","doc":"a"}
< {"do":"flush","as":"w","doc":"a"}
> {"b":0,"base":0,"doc":0,"e":"made","line":1,"n":0,"name":"a","project":"p","seat":0,"text":"abc"}
> {"b":0,"client":null,"doc":0,"dup":[],"e":"sent","line":2,"ms":0,"n":1,"number":0,"op":[{"i":"X","p":1}],"seat":0,"source":1,"track":false,"user":"u","v":0}
> {"b":0,"doc":0,"e":"acquired","line":3,"n":2,"seat":0,"token":1,"until":30000}
> {"b":0,"doc":0,"e":"committed","line":3,"n":3,"op":[{"i":"X","p":1}],"out":"applied","seat":0,"ticket":1,"token":1,"v":0}
> {"b":0,"doc":0,"e":"released","line":3,"n":4,"seat":0,"token":1}
> {"b":0,"doc":0,"e":"acquired","line":4,"n":5,"seat":0,"token":2,"until":30000}
> {"b":0,"doc":0,"e":"flushed","line":4,"n":6,"seat":0,"token":2,"v":1}
> {"b":0,"doc":0,"e":"released","line":4,"n":7,"seat":0,"token":2}
> {"b":0,"driver":0,"e":"closed","line":null,"n":8,"seat":0}
> {"b":0,"e":"ticked","line":null,"ms":30000,"n":9,"seat":0}
> {"b":0,"changes":[],"comments":[],"doc":0,"e":"doc","kept":1,"name":"a","text":"aXbc","v":1}
> {"b":0,"e":"project","handed":0,"left":1,"project":"p"}

# a document that was not made, and one that another session holds
$ run
< {"do":"doc","doc":"a","project":"p","text":"abc"}
< {"do":"raw","as":"w","doc":"a","user":"u","source":1,"v":0,"op":[{"i":"X","p":1}]}
< {"do":"flush","as":"w","doc":"b"}
< {"do":"hold","as":"h","doc":"a"}
< {"do":"flush","as":"w","doc":"a"}
> {"b":0,"base":0,"doc":0,"e":"made","line":1,"n":0,"name":"a","project":"p","seat":0,"text":"abc"}
> {"b":0,"client":null,"doc":0,"dup":[],"e":"sent","line":2,"ms":0,"n":1,"number":0,"op":[{"i":"X","p":1}],"seat":0,"source":1,"track":false,"user":"u","v":0}
> {"b":0,"e":"declined","line":3,"n":2,"seat":0,"session":0,"why":"no-doc"}
> {"b":0,"doc":0,"e":"acquired","line":4,"n":3,"seat":0,"token":1,"until":30000}
> {"b":0,"e":"declined","line":5,"n":4,"seat":0,"session":0,"token":1,"until":30000,"why":"busy"}
> {"b":0,"driver":0,"e":"closed","line":null,"n":5,"seat":0}
> {"b":0,"e":"ticked","line":null,"ms":30000,"n":6,"seat":0}
> {"b":0,"doc":0,"e":"acquired","line":null,"n":7,"seat":0,"token":2,"until":60000}
> {"b":0,"doc":0,"e":"committed","line":null,"n":8,"op":[{"i":"X","p":1}],"out":"applied","seat":0,"ticket":1,"token":2,"v":0}
> {"b":0,"doc":0,"e":"released","line":null,"n":9,"seat":0,"token":2}
> {"b":0,"doc":0,"e":"acquired","line":null,"n":10,"seat":0,"token":3,"until":60000}
> {"b":0,"doc":0,"e":"flushed","line":null,"n":11,"seat":0,"token":3,"v":1}
> {"b":0,"doc":0,"e":"released","line":null,"n":12,"seat":0,"token":3}
> {"b":0,"changes":[],"comments":[],"doc":0,"e":"doc","kept":1,"name":"a","text":"aXbc","v":1}
> {"b":0,"e":"project","handed":0,"left":1,"project":"p"}
"#
}
