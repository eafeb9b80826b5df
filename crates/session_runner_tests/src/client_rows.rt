//! Clients that type, send, send again, leave and come back.

pub(crate) fn client_rows() -> &'static str {
    r#"
# a client types while the update of another waits
$ run
< {"do":"doc","doc":"a","project":"p","text":"abc"}
< {"do":"join","as":"c","doc":"a","user":"u"}
< {"as":"w","do":"raw","doc":"a","op":[{"d":"b","p":1}],"source":1,"user":"u","v":0}
< {"do":"ins","as":"c","p":1,"s":"X"}
< {"do":"send","as":"c"}
< {"do":"sync","as":"c"}
> {"b":0,"base":0,"doc":0,"e":"made","line":1,"n":0,"name":"a","project":"p","seat":0,"text":"abc"}
> {"b":0,"client":0,"doc":0,"e":"joined","from":null,"line":2,"n":1,"seat":0,"source":1000001,"track":false,"user":"u","v":0}
> {"b":0,"client":null,"doc":0,"dup":[],"e":"sent","line":3,"ms":0,"n":2,"number":0,"op":[{"d":"b","p":1}],"seat":0,"source":1,"track":false,"user":"u","v":0}
> {"b":0,"client":0,"e":"edited","line":4,"n":3,"op":[{"i":"X","p":1}],"seat":0}
> {"b":0,"client":0,"doc":0,"dup":[],"e":"sent","line":5,"ms":0,"n":4,"number":1,"op":[{"i":"X","p":1}],"seat":0,"source":1000001,"track":false,"user":"u","v":0}
> {"b":0,"doc":0,"e":"acquired","line":6,"n":5,"seat":0,"token":1,"until":30000}
> {"b":0,"doc":0,"e":"committed","line":6,"n":6,"op":[{"d":"b","p":1}],"out":"applied","seat":0,"ticket":2,"token":1,"v":0}
> {"b":0,"doc":0,"e":"released","line":6,"n":7,"seat":0,"token":1}
> {"b":0,"doc":0,"e":"acquired","line":6,"n":8,"seat":0,"token":2,"until":30000}
> {"b":0,"doc":0,"e":"committed","line":6,"n":9,"op":[{"i":"X","p":1}],"out":"applied","seat":0,"ticket":4,"token":2,"v":1}
> {"b":0,"doc":0,"e":"released","line":6,"n":10,"seat":0,"token":2}
> {"b":0,"client":0,"e":"got","line":6,"msg":"op","n":11,"seat":0,"v":0}
> {"b":0,"client":0,"e":"got","line":6,"msg":"ack","n":12,"seat":0,"v":1}
> {"b":0,"driver":0,"e":"closed","line":null,"n":13,"seat":0}
> {"b":0,"e":"ticked","line":null,"ms":30000,"n":14,"seat":0}
> {"b":0,"doc":0,"e":"acquired","line":null,"n":15,"seat":0,"token":3,"until":60000}
> {"b":0,"doc":0,"e":"flushed","line":null,"n":16,"seat":0,"token":3,"v":2}
> {"b":0,"doc":0,"e":"released","line":null,"n":17,"seat":0,"token":3}
> {"b":0,"changes":[],"comments":[],"doc":0,"e":"doc","kept":2,"name":"a","text":"aXc","v":2}
> {"b":0,"client":0,"doc":0,"e":"client","flight":null,"name":"c","pending":[],"state":"joined","text":"aXc","v":2}
> {"b":0,"e":"project","handed":0,"left":2,"project":"p"}

# sending before joining, typing past the end, sending and receiving nothing
$ run
< {"do":"doc","doc":"a","project":"p","text":"ab"}
< {"as":"c","do":"send"}
< {"as":"c","do":"join","doc":"a","user":"u"}
< {"as":"c","do":"ins","p":3,"s":"z"}
< {"as":"c","do":"send"}
< {"as":"c","do":"recv"}
> {"b":0,"base":0,"doc":0,"e":"made","line":1,"n":0,"name":"a","project":"p","seat":0,"text":"ab"}
> {"b":0,"e":"declined","line":2,"n":1,"seat":0,"session":0,"why":"not-joined"}
> {"b":0,"client":0,"doc":0,"e":"joined","from":null,"line":3,"n":2,"seat":0,"source":1000002,"track":false,"user":"u","v":0}
> {"b":0,"e":"declined","len":2,"line":4,"n":3,"seat":0,"session":0,"why":"past-end"}
> {"b":0,"e":"declined","line":5,"n":4,"seat":0,"session":0,"why":"nothing"}
> {"b":0,"e":"declined","line":6,"n":5,"seat":0,"session":0,"why":"empty"}
> {"b":0,"driver":0,"e":"closed","line":null,"n":6,"seat":0}
> {"b":0,"e":"ticked","line":null,"ms":30000,"n":7,"seat":0}
> {"b":0,"doc":0,"e":"acquired","line":null,"n":8,"seat":0,"token":1,"until":60000}
> {"b":0,"doc":0,"e":"flushed","line":null,"n":9,"seat":0,"token":1,"v":0}
> {"b":0,"doc":0,"e":"released","line":null,"n":10,"seat":0,"token":1}
> {"b":0,"changes":[],"comments":[],"doc":0,"e":"doc","kept":0,"name":"a","text":"ab","v":0}
> {"b":0,"client":0,"doc":0,"e":"client","flight":null,"name":"c","pending":[],"state":"joined","text":"ab","v":0}
> {"b":0,"e":"project","handed":0,"left":0,"project":"p"}

# an update that is sent twice is applied once
$ run
< {"do":"doc","doc":"a","project":"p","text":"ab"}
< {"as":"c","do":"join","doc":"a","user":"u"}
< {"as":"c","do":"ins","p":1,"s":"X"}
< {"as":"c","do":"send"}
< {"as":"c","do":"resend"}
< {"as":"c","do":"sync"}
> {"b":0,"base":0,"doc":0,"e":"made","line":1,"n":0,"name":"a","project":"p","seat":0,"text":"ab"}
> {"b":0,"client":0,"doc":0,"e":"joined","from":null,"line":2,"n":1,"seat":0,"source":1000001,"track":false,"user":"u","v":0}
> {"b":0,"client":0,"e":"edited","line":3,"n":2,"op":[{"i":"X","p":1}],"seat":0}
> {"b":0,"client":0,"doc":0,"dup":[],"e":"sent","line":4,"ms":0,"n":3,"number":1,"op":[{"i":"X","p":1}],"seat":0,"source":1000001,"track":false,"user":"u","v":0}
> {"b":0,"client":0,"doc":0,"dup":[1000001],"e":"sent","line":5,"ms":0,"n":4,"number":1,"op":[{"i":"X","p":1}],"seat":0,"source":1000001,"track":false,"user":"u","v":0}
> {"b":0,"doc":0,"e":"acquired","line":6,"n":5,"seat":0,"token":1,"until":30000}
> {"b":0,"doc":0,"e":"committed","line":6,"n":6,"op":[{"i":"X","p":1}],"out":"applied","seat":0,"ticket":3,"token":1,"v":0}
> {"b":0,"doc":0,"e":"released","line":6,"n":7,"seat":0,"token":1}
> {"b":0,"doc":0,"e":"acquired","line":6,"n":8,"seat":0,"token":2,"until":30000}
> {"b":0,"doc":0,"e":"committed","line":6,"n":9,"out":"dup","seat":0,"ticket":4,"token":2,"v":0}
> {"b":0,"doc":0,"e":"released","line":6,"n":10,"seat":0,"token":2}
> {"b":0,"client":0,"e":"got","line":6,"msg":"ack","n":11,"seat":0,"v":0}
> {"b":0,"client":0,"e":"got","line":6,"msg":"ack","n":12,"seat":0,"v":0}
> {"b":0,"driver":0,"e":"closed","line":null,"n":13,"seat":0}
> {"b":0,"e":"ticked","line":null,"ms":30000,"n":14,"seat":0}
> {"b":0,"doc":0,"e":"acquired","line":null,"n":15,"seat":0,"token":3,"until":60000}
> {"b":0,"doc":0,"e":"flushed","line":null,"n":16,"seat":0,"token":3,"v":1}
> {"b":0,"doc":0,"e":"released","line":null,"n":17,"seat":0,"token":3}
> {"b":0,"changes":[],"comments":[],"doc":0,"e":"doc","kept":1,"name":"a","text":"aXb","v":1}
> {"b":0,"client":0,"doc":0,"e":"client","flight":null,"name":"c","pending":[],"state":"joined","text":"aXb","v":1}
> {"b":0,"e":"project","handed":0,"left":1,"project":"p"}

# what was applied while a client was away answers its update
$ run
< {"do":"doc","doc":"a","project":"p","text":"ab"}
< {"as":"c","do":"join","doc":"a","user":"u"}
< {"as":"c","do":"ins","p":1,"s":"X"}
< {"as":"c","do":"send"}
< {"as":"c","do":"leave"}
< {"as":"w","do":"drain","doc":"a"}
< {"as":"c","do":"rejoin"}
< {"as":"c","do":"resend"}
> {"b":0,"base":0,"doc":0,"e":"made","line":1,"n":0,"name":"a","project":"p","seat":0,"text":"ab"}
> {"b":0,"client":0,"doc":0,"e":"joined","from":null,"line":2,"n":1,"seat":0,"source":1000001,"track":false,"user":"u","v":0}
> {"b":0,"client":0,"e":"edited","line":3,"n":2,"op":[{"i":"X","p":1}],"seat":0}
> {"b":0,"client":0,"doc":0,"dup":[],"e":"sent","line":4,"ms":0,"n":3,"number":1,"op":[{"i":"X","p":1}],"seat":0,"source":1000001,"track":false,"user":"u","v":0}
> {"b":0,"client":0,"e":"left","line":5,"n":4,"seat":0}
> {"b":0,"doc":0,"e":"acquired","line":6,"n":5,"seat":0,"token":1,"until":30000}
> {"b":0,"doc":0,"e":"committed","line":6,"n":6,"op":[{"i":"X","p":1}],"out":"applied","seat":0,"ticket":3,"token":1,"v":0}
> {"b":0,"doc":0,"e":"released","line":6,"n":7,"seat":0,"token":1}
> {"b":0,"client":0,"doc":0,"e":"joined","from":0,"line":7,"n":8,"seat":0,"source":1000008,"track":false,"user":"u","v":1}
> {"b":0,"e":"declined","line":8,"n":9,"seat":0,"session":0,"why":"nothing"}
> {"b":0,"driver":0,"e":"closed","line":null,"n":10,"seat":0}
> {"b":0,"e":"ticked","line":null,"ms":30000,"n":11,"seat":0}
> {"b":0,"doc":0,"e":"acquired","line":null,"n":12,"seat":0,"token":2,"until":60000}
> {"b":0,"doc":0,"e":"flushed","line":null,"n":13,"seat":0,"token":2,"v":1}
> {"b":0,"doc":0,"e":"released","line":null,"n":14,"seat":0,"token":2}
> {"b":0,"changes":[],"comments":[],"doc":0,"e":"doc","kept":1,"name":"a","text":"aXb","v":1}
> {"b":0,"client":0,"doc":0,"e":"client","flight":null,"name":"c","pending":[],"state":"joined","text":"aXb","v":1}
> {"b":0,"e":"project","handed":0,"left":1,"project":"p"}

# a client that is away can do neither, and one that is joined has nothing to send again
$ run
< {"do":"doc","doc":"a","project":"p","text":"ab"}
< {"as":"c","do":"leave"}
< {"as":"c","do":"rejoin"}
< {"as":"c","do":"resend"}
< {"as":"c","do":"join","doc":"a","user":"u"}
< {"as":"c","do":"resend"}
< {"as":"c","do":"rejoin"}
> {"b":0,"base":0,"doc":0,"e":"made","line":1,"n":0,"name":"a","project":"p","seat":0,"text":"ab"}
> {"b":0,"e":"declined","line":2,"n":1,"seat":0,"session":0,"why":"not-joined"}
> {"b":0,"e":"declined","line":3,"n":2,"seat":0,"session":0,"why":"not-left"}
> {"b":0,"e":"declined","line":4,"n":3,"seat":0,"session":0,"why":"not-joined"}
> {"b":0,"client":0,"doc":0,"e":"joined","from":null,"line":5,"n":4,"seat":0,"source":1000004,"track":false,"user":"u","v":0}
> {"b":0,"e":"declined","line":6,"n":5,"seat":0,"session":0,"why":"nothing"}
> {"b":0,"e":"declined","line":7,"n":6,"seat":0,"session":0,"why":"not-left"}
> {"b":0,"driver":0,"e":"closed","line":null,"n":7,"seat":0}
> {"b":0,"e":"ticked","line":null,"ms":30000,"n":8,"seat":0}
> {"b":0,"doc":0,"e":"acquired","line":null,"n":9,"seat":0,"token":1,"until":60000}
> {"b":0,"doc":0,"e":"flushed","line":null,"n":10,"seat":0,"token":1,"v":0}
> {"b":0,"doc":0,"e":"released","line":null,"n":11,"seat":0,"token":1}
> {"b":0,"changes":[],"comments":[],"doc":0,"e":"doc","kept":0,"name":"a","text":"ab","v":0}
> {"b":0,"client":0,"doc":0,"e":"client","flight":null,"name":"c","pending":[],"state":"joined","text":"ab","v":0}
> {"b":0,"e":"project","handed":0,"left":0,"project":"p"}
"#
}
