//! A keeper whose first put fails.

pub(crate) fn failing_keeper_rows() -> &'static str {
    r#"
# a flush that fails, and one after it
$ run
< {"do":"doc","doc":"a","project":"p","text":"abc"}
< {"do":"flush","as":"w","doc":"a"}
< {"do":"flush","as":"w","doc":"a"}
> {"b":0,"base":0,"doc":0,"e":"made","line":1,"n":0,"name":"a","project":"p","seat":0,"text":"abc"}
> {"b":0,"doc":0,"e":"acquired","line":2,"n":1,"seat":0,"token":1,"until":30000}
> {"after":1,"b":0,"before":0,"doc":0,"e":"flush-failed","line":2,"n":2,"seat":0,"token":1}
> {"b":0,"doc":0,"e":"released","line":2,"n":3,"seat":0,"token":1}
> {"b":0,"doc":0,"e":"acquired","line":3,"n":4,"seat":0,"token":2,"until":30000}
> {"b":0,"doc":0,"e":"flushed","line":3,"n":5,"seat":0,"token":2,"v":0}
> {"b":0,"doc":0,"e":"released","line":3,"n":6,"seat":0,"token":2}
> {"b":0,"driver":0,"e":"closed","line":null,"n":7,"seat":0}
> {"b":0,"e":"ticked","line":null,"ms":30000,"n":8,"seat":0}
> {"b":0,"changes":[],"comments":[],"doc":0,"e":"doc","kept":0,"name":"a","text":"abc","v":0}
> {"b":0,"e":"project","handed":0,"left":0,"project":"p"}

# a flush that fails at the end
$ run
= 7
< {"do":"doc","doc":"a","project":"p","text":"abc"}
< {"do":"raw","as":"w","doc":"a","user":"u","source":1,"v":0,"op":[{"i":"X","p":1}]}
> {"b":0,"base":0,"doc":0,"e":"made","line":1,"n":0,"name":"a","project":"p","seat":0,"text":"abc"}
> {"b":0,"client":null,"doc":0,"dup":[],"e":"sent","line":2,"ms":0,"n":1,"number":0,"op":[{"i":"X","p":1}],"seat":0,"source":1,"track":false,"user":"u","v":0}
> {"b":0,"driver":0,"e":"closed","line":null,"n":2,"seat":0}
> {"b":0,"e":"ticked","line":null,"ms":30000,"n":3,"seat":0}
> {"b":0,"doc":0,"e":"acquired","line":null,"n":4,"seat":0,"token":1,"until":60000}
> {"b":0,"doc":0,"e":"committed","line":null,"n":5,"op":[{"i":"X","p":1}],"out":"applied","seat":0,"ticket":1,"token":1,"v":0}
> {"b":0,"doc":0,"e":"released","line":null,"n":6,"seat":0,"token":1}
> {"b":0,"doc":0,"e":"acquired","line":null,"n":7,"seat":0,"token":2,"until":60000}
> {"after":1,"b":0,"before":0,"doc":0,"e":"flush-failed","line":null,"n":8,"seat":0,"token":2}
> {"b":0,"doc":0,"e":"released","line":null,"n":9,"seat":0,"token":2}
> {"b":0,"changes":[],"comments":[],"doc":0,"e":"doc","kept":null,"name":"a","text":"aXbc","v":1}
> {"b":0,"e":"project","handed":0,"left":1,"project":"p"}
"#
}
