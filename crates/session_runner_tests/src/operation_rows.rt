//! Operations on one document that are transformed past each other, and those that are refused.

pub(crate) fn operation_rows() -> &'static str {
    r#"
# an empty input
$ run
> {"b":0,"driver":0,"e":"closed","line":null,"n":0,"seat":0}
> {"b":0,"e":"ticked","line":null,"ms":30000,"n":1,"seat":0}

# the plainest run
$ run
< {"do":"doc","doc":"a","project":"p","text":"abc"}
< {"do":"raw","as":"w","doc":"a","user":"u","source":1,"v":0,"op":[{"i":"X","p":1}]}
> {"b":0,"base":0,"doc":0,"e":"made","line":1,"n":0,"name":"a","project":"p","seat":0,"text":"abc"}
> {"b":0,"client":null,"doc":0,"dup":[],"e":"sent","line":2,"ms":0,"n":1,"number":0,"op":[{"i":"X","p":1}],"seat":0,"source":1,"track":false,"user":"u","v":0}
> {"b":0,"driver":0,"e":"closed","line":null,"n":2,"seat":0}
> {"b":0,"e":"ticked","line":null,"ms":30000,"n":3,"seat":0}
> {"b":0,"doc":0,"e":"acquired","line":null,"n":4,"seat":0,"token":1,"until":60000}
> {"b":0,"doc":0,"e":"committed","line":null,"n":5,"op":[{"i":"X","p":1}],"out":"applied","seat":0,"ticket":1,"token":1,"v":0}
> {"b":0,"doc":0,"e":"released","line":null,"n":6,"seat":0,"token":1}
> {"b":0,"doc":0,"e":"acquired","line":null,"n":7,"seat":0,"token":2,"until":60000}
> {"b":0,"doc":0,"e":"flushed","line":null,"n":8,"seat":0,"token":2,"v":1}
> {"b":0,"doc":0,"e":"released","line":null,"n":9,"seat":0,"token":2}
> {"b":0,"changes":[],"comments":[],"doc":0,"e":"doc","kept":1,"name":"a","text":"aXbc","v":1}
> {"b":0,"e":"project","handed":0,"left":1,"project":"p"}

# the later of two inserts at one place stands in front
$ run
< {"do":"doc","doc":"a","project":"p","text":"ab"}
< {"as":"w","do":"raw","doc":"a","op":[{"i":"X","p":1}],"source":1,"user":"u","v":0}
< {"as":"w","do":"raw","doc":"a","op":[{"i":"Y","p":1}],"source":2,"user":"u","v":0}
> {"b":0,"base":0,"doc":0,"e":"made","line":1,"n":0,"name":"a","project":"p","seat":0,"text":"ab"}
> {"b":0,"client":null,"doc":0,"dup":[],"e":"sent","line":2,"ms":0,"n":1,"number":0,"op":[{"i":"X","p":1}],"seat":0,"source":1,"track":false,"user":"u","v":0}
> {"b":0,"client":null,"doc":0,"dup":[],"e":"sent","line":3,"ms":0,"n":2,"number":0,"op":[{"i":"Y","p":1}],"seat":0,"source":2,"track":false,"user":"u","v":0}
> {"b":0,"driver":0,"e":"closed","line":null,"n":3,"seat":0}
> {"b":0,"e":"ticked","line":null,"ms":30000,"n":4,"seat":0}
> {"b":0,"doc":0,"e":"acquired","line":null,"n":5,"seat":0,"token":1,"until":60000}
> {"b":0,"doc":0,"e":"committed","line":null,"n":6,"op":[{"i":"X","p":1}],"out":"applied","seat":0,"ticket":1,"token":1,"v":0}
> {"b":0,"doc":0,"e":"released","line":null,"n":7,"seat":0,"token":1}
> {"b":0,"doc":0,"e":"acquired","line":null,"n":8,"seat":0,"token":2,"until":60000}
> {"b":0,"doc":0,"e":"committed","line":null,"n":9,"op":[{"i":"Y","p":1}],"out":"applied","seat":0,"ticket":2,"token":2,"v":1}
> {"b":0,"doc":0,"e":"released","line":null,"n":10,"seat":0,"token":2}
> {"b":0,"doc":0,"e":"acquired","line":null,"n":11,"seat":0,"token":3,"until":60000}
> {"b":0,"doc":0,"e":"flushed","line":null,"n":12,"seat":0,"token":3,"v":2}
> {"b":0,"doc":0,"e":"released","line":null,"n":13,"seat":0,"token":3}
> {"b":0,"changes":[],"comments":[],"doc":0,"e":"doc","kept":2,"name":"a","text":"aYXb","v":2}
> {"b":0,"e":"project","handed":0,"left":2,"project":"p"}

# an insert in a deleted part
$ run
< {"do":"doc","doc":"a","project":"p","text":"abcdef"}
< {"as":"w","do":"raw","doc":"a","op":[{"i":"XY","p":3}],"source":1,"user":"u","v":0}
< {"as":"w","do":"raw","doc":"a","op":[{"d":"bcde","p":1}],"source":2,"user":"u","v":0}
> {"b":0,"base":0,"doc":0,"e":"made","line":1,"n":0,"name":"a","project":"p","seat":0,"text":"abcdef"}
> {"b":0,"client":null,"doc":0,"dup":[],"e":"sent","line":2,"ms":0,"n":1,"number":0,"op":[{"i":"XY","p":3}],"seat":0,"source":1,"track":false,"user":"u","v":0}
> {"b":0,"client":null,"doc":0,"dup":[],"e":"sent","line":3,"ms":0,"n":2,"number":0,"op":[{"d":"bcde","p":1}],"seat":0,"source":2,"track":false,"user":"u","v":0}
> {"b":0,"driver":0,"e":"closed","line":null,"n":3,"seat":0}
> {"b":0,"e":"ticked","line":null,"ms":30000,"n":4,"seat":0}
> {"b":0,"doc":0,"e":"acquired","line":null,"n":5,"seat":0,"token":1,"until":60000}
> {"b":0,"doc":0,"e":"committed","line":null,"n":6,"op":[{"i":"XY","p":3}],"out":"applied","seat":0,"ticket":1,"token":1,"v":0}
> {"b":0,"doc":0,"e":"released","line":null,"n":7,"seat":0,"token":1}
> {"b":0,"doc":0,"e":"acquired","line":null,"n":8,"seat":0,"token":2,"until":60000}
> {"b":0,"doc":0,"e":"committed","line":null,"n":9,"op":[{"d":"bc","p":1},{"d":"de","p":3}],"out":"applied","seat":0,"ticket":2,"token":2,"v":1}
> {"b":0,"doc":0,"e":"released","line":null,"n":10,"seat":0,"token":2}
> {"b":0,"doc":0,"e":"acquired","line":null,"n":11,"seat":0,"token":3,"until":60000}
> {"b":0,"doc":0,"e":"flushed","line":null,"n":12,"seat":0,"token":3,"v":2}
> {"b":0,"doc":0,"e":"released","line":null,"n":13,"seat":0,"token":3}
> {"b":0,"changes":[],"comments":[],"doc":0,"e":"doc","kept":2,"name":"a","text":"aXYf","v":2}
> {"b":0,"e":"project","handed":0,"left":2,"project":"p"}

# two deletes that overlap
$ run
< {"do":"doc","doc":"a","project":"p","text":"abcdef"}
< {"as":"w","do":"raw","doc":"a","op":[{"d":"bcd","p":1}],"source":1,"user":"u","v":0}
< {"as":"w","do":"raw","doc":"a","op":[{"d":"cde","p":2}],"source":2,"user":"u","v":0}
> {"b":0,"base":0,"doc":0,"e":"made","line":1,"n":0,"name":"a","project":"p","seat":0,"text":"abcdef"}
> {"b":0,"client":null,"doc":0,"dup":[],"e":"sent","line":2,"ms":0,"n":1,"number":0,"op":[{"d":"bcd","p":1}],"seat":0,"source":1,"track":false,"user":"u","v":0}
> {"b":0,"client":null,"doc":0,"dup":[],"e":"sent","line":3,"ms":0,"n":2,"number":0,"op":[{"d":"cde","p":2}],"seat":0,"source":2,"track":false,"user":"u","v":0}
> {"b":0,"driver":0,"e":"closed","line":null,"n":3,"seat":0}
> {"b":0,"e":"ticked","line":null,"ms":30000,"n":4,"seat":0}
> {"b":0,"doc":0,"e":"acquired","line":null,"n":5,"seat":0,"token":1,"until":60000}
> {"b":0,"doc":0,"e":"committed","line":null,"n":6,"op":[{"d":"bcd","p":1}],"out":"applied","seat":0,"ticket":1,"token":1,"v":0}
> {"b":0,"doc":0,"e":"released","line":null,"n":7,"seat":0,"token":1}
> {"b":0,"doc":0,"e":"acquired","line":null,"n":8,"seat":0,"token":2,"until":60000}
> {"b":0,"doc":0,"e":"committed","line":null,"n":9,"op":[{"d":"e","p":1}],"out":"applied","seat":0,"ticket":2,"token":2,"v":1}
> {"b":0,"doc":0,"e":"released","line":null,"n":10,"seat":0,"token":2}
> {"b":0,"doc":0,"e":"acquired","line":null,"n":11,"seat":0,"token":3,"until":60000}
> {"b":0,"doc":0,"e":"flushed","line":null,"n":12,"seat":0,"token":3,"v":2}
> {"b":0,"doc":0,"e":"released","line":null,"n":13,"seat":0,"token":3}
> {"b":0,"changes":[],"comments":[],"doc":0,"e":"doc","kept":2,"name":"a","text":"af","v":2}
> {"b":0,"e":"project","handed":0,"left":2,"project":"p"}

# the same delete twice
$ run
< {"do":"doc","doc":"a","project":"p","text":"abc"}
< {"as":"w","do":"raw","doc":"a","op":[{"d":"b","p":1}],"source":1,"user":"u","v":0}
< {"as":"w","do":"raw","doc":"a","op":[{"d":"b","p":1}],"source":2,"user":"u","v":0}
> {"b":0,"base":0,"doc":0,"e":"made","line":1,"n":0,"name":"a","project":"p","seat":0,"text":"abc"}
> {"b":0,"client":null,"doc":0,"dup":[],"e":"sent","line":2,"ms":0,"n":1,"number":0,"op":[{"d":"b","p":1}],"seat":0,"source":1,"track":false,"user":"u","v":0}
> {"b":0,"client":null,"doc":0,"dup":[],"e":"sent","line":3,"ms":0,"n":2,"number":0,"op":[{"d":"b","p":1}],"seat":0,"source":2,"track":false,"user":"u","v":0}
> {"b":0,"driver":0,"e":"closed","line":null,"n":3,"seat":0}
> {"b":0,"e":"ticked","line":null,"ms":30000,"n":4,"seat":0}
> {"b":0,"doc":0,"e":"acquired","line":null,"n":5,"seat":0,"token":1,"until":60000}
> {"b":0,"doc":0,"e":"committed","line":null,"n":6,"op":[{"d":"b","p":1}],"out":"applied","seat":0,"ticket":1,"token":1,"v":0}
> {"b":0,"doc":0,"e":"released","line":null,"n":7,"seat":0,"token":1}
> {"b":0,"doc":0,"e":"acquired","line":null,"n":8,"seat":0,"token":2,"until":60000}
> {"b":0,"doc":0,"e":"committed","line":null,"n":9,"op":[],"out":"applied","seat":0,"ticket":2,"token":2,"v":1}
> {"b":0,"doc":0,"e":"released","line":null,"n":10,"seat":0,"token":2}
> {"b":0,"doc":0,"e":"acquired","line":null,"n":11,"seat":0,"token":3,"until":60000}
> {"b":0,"doc":0,"e":"flushed","line":null,"n":12,"seat":0,"token":3,"v":2}
> {"b":0,"doc":0,"e":"released","line":null,"n":13,"seat":0,"token":3}
> {"b":0,"changes":[],"comments":[],"doc":0,"e":"doc","kept":2,"name":"a","text":"ac","v":2}
> {"b":0,"e":"project","handed":0,"left":2,"project":"p"}

# an insert in a commented part
$ run
< {"do":"doc","doc":"a","project":"p","text":"abcde"}
< {"as":"w","do":"raw","doc":"a","op":[{"c":"bcd","p":1,"t":7}],"source":1,"user":"u","v":0}
< {"as":"w","do":"raw","doc":"a","op":[{"i":"X","p":2}],"source":2,"user":"u","v":1}
> {"b":0,"base":0,"doc":0,"e":"made","line":1,"n":0,"name":"a","project":"p","seat":0,"text":"abcde"}
> {"b":0,"client":null,"doc":0,"dup":[],"e":"sent","line":2,"ms":0,"n":1,"number":0,"op":[{"c":"bcd","p":1,"t":7}],"seat":0,"source":1,"track":false,"user":"u","v":0}
> {"b":0,"client":null,"doc":0,"dup":[],"e":"sent","line":3,"ms":0,"n":2,"number":0,"op":[{"i":"X","p":2}],"seat":0,"source":2,"track":false,"user":"u","v":1}
> {"b":0,"driver":0,"e":"closed","line":null,"n":3,"seat":0}
> {"b":0,"e":"ticked","line":null,"ms":30000,"n":4,"seat":0}
> {"b":0,"doc":0,"e":"acquired","line":null,"n":5,"seat":0,"token":1,"until":60000}
> {"b":0,"doc":0,"e":"committed","line":null,"n":6,"op":[{"c":"bcd","p":1,"t":7}],"out":"applied","seat":0,"ticket":1,"token":1,"v":0}
> {"b":0,"doc":0,"e":"released","line":null,"n":7,"seat":0,"token":1}
> {"b":0,"doc":0,"e":"acquired","line":null,"n":8,"seat":0,"token":2,"until":60000}
> {"b":0,"doc":0,"e":"committed","line":null,"n":9,"op":[{"i":"X","p":2}],"out":"applied","seat":0,"ticket":2,"token":2,"v":1}
> {"b":0,"doc":0,"e":"released","line":null,"n":10,"seat":0,"token":2}
> {"b":0,"doc":0,"e":"acquired","line":null,"n":11,"seat":0,"token":3,"until":60000}
> {"b":0,"doc":0,"e":"flushed","line":null,"n":12,"seat":0,"token":3,"v":2}
> {"b":0,"doc":0,"e":"released","line":null,"n":13,"seat":0,"token":3}
> {"b":0,"changes":[],"comments":[{"at":1,"t":7,"text":"bXcd"}],"doc":0,"e":"doc","kept":2,"name":"a","text":"abXcde","v":2}
> {"b":0,"e":"project","handed":0,"left":2,"project":"p"}

# a comment on a text that is not there
$ run
< {"do":"doc","doc":"a","project":"p","text":"ab"}
< {"as":"w","do":"raw","doc":"a","op":[{"c":"x","p":0,"t":1}],"source":1,"user":"u","v":0}
> {"b":0,"base":0,"doc":0,"e":"made","line":1,"n":0,"name":"a","project":"p","seat":0,"text":"ab"}
> {"b":0,"client":null,"doc":0,"dup":[],"e":"sent","line":2,"ms":0,"n":1,"number":0,"op":[{"c":"x","p":0,"t":1}],"seat":0,"source":1,"track":false,"user":"u","v":0}
> {"b":0,"driver":0,"e":"closed","line":null,"n":2,"seat":0}
> {"b":0,"e":"ticked","line":null,"ms":30000,"n":3,"seat":0}
> {"b":0,"doc":0,"e":"acquired","line":null,"n":4,"seat":0,"token":1,"until":60000}
> {"b":0,"cause":"mismatch","doc":0,"e":"committed","line":null,"n":5,"out":"refused","seat":0,"ticket":1,"token":1}
> {"b":0,"doc":0,"e":"released","line":null,"n":6,"seat":0,"token":1}
> {"b":0,"doc":0,"e":"acquired","line":null,"n":7,"seat":0,"token":2,"until":60000}
> {"b":0,"doc":0,"e":"flushed","line":null,"n":8,"seat":0,"token":2,"v":0}
> {"b":0,"doc":0,"e":"released","line":null,"n":9,"seat":0,"token":2}
> {"b":0,"changes":[],"comments":[],"doc":0,"e":"doc","kept":0,"name":"a","text":"ab","v":0}
> {"b":0,"e":"project","handed":0,"left":0,"project":"p"}

# parts that are not there, and a place past the end
$ run
< {"do":"doc","doc":"a","project":"p","text":"abc"}
< {"as":"w","do":"raw","doc":"a","op":[{"d":"x","p":0}],"source":1,"user":"u","v":0}
< {"as":"w","do":"raw","doc":"a","op":[{"i":"z","p":4}],"source":2,"user":"u","v":0}
< {"as":"w","do":"raw","doc":"a","op":[{"i":"z","p":3}],"source":3,"user":"u","v":0}
> {"b":0,"base":0,"doc":0,"e":"made","line":1,"n":0,"name":"a","project":"p","seat":0,"text":"abc"}
> {"b":0,"client":null,"doc":0,"dup":[],"e":"sent","line":2,"ms":0,"n":1,"number":0,"op":[{"d":"x","p":0}],"seat":0,"source":1,"track":false,"user":"u","v":0}
> {"b":0,"client":null,"doc":0,"dup":[],"e":"sent","line":3,"ms":0,"n":2,"number":0,"op":[{"i":"z","p":4}],"seat":0,"source":2,"track":false,"user":"u","v":0}
> {"b":0,"client":null,"doc":0,"dup":[],"e":"sent","line":4,"ms":0,"n":3,"number":0,"op":[{"i":"z","p":3}],"seat":0,"source":3,"track":false,"user":"u","v":0}
> {"b":0,"driver":0,"e":"closed","line":null,"n":4,"seat":0}
> {"b":0,"e":"ticked","line":null,"ms":30000,"n":5,"seat":0}
> {"b":0,"doc":0,"e":"acquired","line":null,"n":6,"seat":0,"token":1,"until":60000}
> {"b":0,"cause":"mismatch","doc":0,"e":"committed","line":null,"n":7,"out":"refused","seat":0,"ticket":1,"token":1}
> {"b":0,"doc":0,"e":"released","line":null,"n":8,"seat":0,"token":1}
> {"b":0,"doc":0,"e":"acquired","line":null,"n":9,"seat":0,"token":2,"until":60000}
> {"b":0,"cause":"mismatch","doc":0,"e":"committed","line":null,"n":10,"out":"refused","seat":0,"ticket":2,"token":2}
> {"b":0,"doc":0,"e":"released","line":null,"n":11,"seat":0,"token":2}
> {"b":0,"doc":0,"e":"acquired","line":null,"n":12,"seat":0,"token":3,"until":60000}
> {"b":0,"doc":0,"e":"committed","line":null,"n":13,"op":[{"i":"z","p":3}],"out":"applied","seat":0,"ticket":3,"token":3,"v":0}
> {"b":0,"doc":0,"e":"released","line":null,"n":14,"seat":0,"token":3}
> {"b":0,"doc":0,"e":"acquired","line":null,"n":15,"seat":0,"token":4,"until":60000}
> {"b":0,"doc":0,"e":"flushed","line":null,"n":16,"seat":0,"token":4,"v":1}
> {"b":0,"doc":0,"e":"released","line":null,"n":17,"seat":0,"token":4}
> {"b":0,"changes":[],"comments":[],"doc":0,"e":"doc","kept":1,"name":"a","text":"abcz","v":1}
> {"b":0,"e":"project","handed":0,"left":1,"project":"p"}

# an update of a later version
$ run
< {"do":"doc","doc":"a","project":"p","text":"ab"}
< {"as":"w","do":"raw","doc":"a","op":[{"i":"x","p":0}],"source":1,"user":"u","v":1}
< {"as":"w","do":"raw","doc":"a","op":[{"i":"x","p":0}],"source":2,"user":"u","v":18446744073709551615}
> {"b":0,"base":0,"doc":0,"e":"made","line":1,"n":0,"name":"a","project":"p","seat":0,"text":"ab"}
> {"b":0,"client":null,"doc":0,"dup":[],"e":"sent","line":2,"ms":0,"n":1,"number":0,"op":[{"i":"x","p":0}],"seat":0,"source":1,"track":false,"user":"u","v":1}
> {"b":0,"client":null,"doc":0,"dup":[],"e":"sent","line":3,"ms":0,"n":2,"number":0,"op":[{"i":"x","p":0}],"seat":0,"source":2,"track":false,"user":"u","v":18446744073709551615}
> {"b":0,"driver":0,"e":"closed","line":null,"n":3,"seat":0}
> {"b":0,"e":"ticked","line":null,"ms":30000,"n":4,"seat":0}
> {"b":0,"doc":0,"e":"acquired","line":null,"n":5,"seat":0,"token":1,"until":60000}
> {"b":0,"cause":"future","doc":0,"e":"committed","have":0,"line":null,"n":6,"out":"refused","seat":0,"ticket":1,"token":1}
> {"b":0,"doc":0,"e":"released","line":null,"n":7,"seat":0,"token":1}
> {"b":0,"doc":0,"e":"acquired","line":null,"n":8,"seat":0,"token":2,"until":60000}
> {"b":0,"cause":"future","doc":0,"e":"committed","have":0,"line":null,"n":9,"out":"refused","seat":0,"ticket":2,"token":2}
> {"b":0,"doc":0,"e":"released","line":null,"n":10,"seat":0,"token":2}
> {"b":0,"doc":0,"e":"acquired","line":null,"n":11,"seat":0,"token":3,"until":60000}
> {"b":0,"doc":0,"e":"flushed","line":null,"n":12,"seat":0,"token":3,"v":0}
> {"b":0,"doc":0,"e":"released","line":null,"n":13,"seat":0,"token":3}
> {"b":0,"changes":[],"comments":[],"doc":0,"e":"doc","kept":0,"name":"a","text":"ab","v":0}
> {"b":0,"e":"project","handed":0,"left":0,"project":"p"}

# an update that was applied
$ run
< {"do":"doc","doc":"a","project":"p","text":"ab"}
< {"as":"w","do":"raw","doc":"a","op":[{"i":"X","p":0}],"source":5,"user":"u","v":0}
< {"as":"w","do":"raw","doc":"a","dup":[5],"op":[{"i":"X","p":0}],"source":6,"user":"u","v":0}
> {"b":0,"base":0,"doc":0,"e":"made","line":1,"n":0,"name":"a","project":"p","seat":0,"text":"ab"}
> {"b":0,"client":null,"doc":0,"dup":[],"e":"sent","line":2,"ms":0,"n":1,"number":0,"op":[{"i":"X","p":0}],"seat":0,"source":5,"track":false,"user":"u","v":0}
> {"b":0,"client":null,"doc":0,"dup":[5],"e":"sent","line":3,"ms":0,"n":2,"number":0,"op":[{"i":"X","p":0}],"seat":0,"source":6,"track":false,"user":"u","v":0}
> {"b":0,"driver":0,"e":"closed","line":null,"n":3,"seat":0}
> {"b":0,"e":"ticked","line":null,"ms":30000,"n":4,"seat":0}
> {"b":0,"doc":0,"e":"acquired","line":null,"n":5,"seat":0,"token":1,"until":60000}
> {"b":0,"doc":0,"e":"committed","line":null,"n":6,"op":[{"i":"X","p":0}],"out":"applied","seat":0,"ticket":1,"token":1,"v":0}
> {"b":0,"doc":0,"e":"released","line":null,"n":7,"seat":0,"token":1}
> {"b":0,"doc":0,"e":"acquired","line":null,"n":8,"seat":0,"token":2,"until":60000}
> {"b":0,"doc":0,"e":"committed","line":null,"n":9,"out":"dup","seat":0,"ticket":2,"token":2,"v":0}
> {"b":0,"doc":0,"e":"released","line":null,"n":10,"seat":0,"token":2}
> {"b":0,"doc":0,"e":"acquired","line":null,"n":11,"seat":0,"token":3,"until":60000}
> {"b":0,"doc":0,"e":"flushed","line":null,"n":12,"seat":0,"token":3,"v":1}
> {"b":0,"doc":0,"e":"released","line":null,"n":13,"seat":0,"token":3}
> {"b":0,"changes":[],"comments":[],"doc":0,"e":"doc","kept":1,"name":"a","text":"Xab","v":1}
> {"b":0,"e":"project","handed":0,"left":1,"project":"p"}

# an update that was applied before the version of its resend
$ run
< {"do":"doc","doc":"a","project":"p","text":"ab"}
< {"as":"w","do":"raw","doc":"a","op":[{"i":"X","p":0}],"source":5,"user":"u","v":0}
< {"as":"w","do":"raw","doc":"a","dup":[5],"op":[{"i":"X","p":0}],"source":6,"user":"u","v":0}
< {"as":"w","do":"raw","doc":"a","dup":[5],"op":[{"i":"Y","p":0}],"source":7,"user":"u","v":1}
> {"b":0,"base":0,"doc":0,"e":"made","line":1,"n":0,"name":"a","project":"p","seat":0,"text":"ab"}
> {"b":0,"client":null,"doc":0,"dup":[],"e":"sent","line":2,"ms":0,"n":1,"number":0,"op":[{"i":"X","p":0}],"seat":0,"source":5,"track":false,"user":"u","v":0}
> {"b":0,"client":null,"doc":0,"dup":[5],"e":"sent","line":3,"ms":0,"n":2,"number":0,"op":[{"i":"X","p":0}],"seat":0,"source":6,"track":false,"user":"u","v":0}
> {"b":0,"client":null,"doc":0,"dup":[5],"e":"sent","line":4,"ms":0,"n":3,"number":0,"op":[{"i":"Y","p":0}],"seat":0,"source":7,"track":false,"user":"u","v":1}
> {"b":0,"driver":0,"e":"closed","line":null,"n":4,"seat":0}
> {"b":0,"e":"ticked","line":null,"ms":30000,"n":5,"seat":0}
> {"b":0,"doc":0,"e":"acquired","line":null,"n":6,"seat":0,"token":1,"until":60000}
> {"b":0,"doc":0,"e":"committed","line":null,"n":7,"op":[{"i":"X","p":0}],"out":"applied","seat":0,"ticket":1,"token":1,"v":0}
> {"b":0,"doc":0,"e":"released","line":null,"n":8,"seat":0,"token":1}
> {"b":0,"doc":0,"e":"acquired","line":null,"n":9,"seat":0,"token":2,"until":60000}
> {"b":0,"doc":0,"e":"committed","line":null,"n":10,"out":"dup","seat":0,"ticket":2,"token":2,"v":0}
> {"b":0,"doc":0,"e":"released","line":null,"n":11,"seat":0,"token":2}
> {"b":0,"doc":0,"e":"acquired","line":null,"n":12,"seat":0,"token":3,"until":60000}
> {"b":0,"doc":0,"e":"committed","line":null,"n":13,"op":[{"i":"Y","p":0}],"out":"applied","seat":0,"ticket":3,"token":3,"v":1}
> {"b":0,"doc":0,"e":"released","line":null,"n":14,"seat":0,"token":3}
> {"b":0,"doc":0,"e":"acquired","line":null,"n":15,"seat":0,"token":4,"until":60000}
> {"b":0,"doc":0,"e":"flushed","line":null,"n":16,"seat":0,"token":4,"v":2}
> {"b":0,"doc":0,"e":"released","line":null,"n":17,"seat":0,"token":4}
> {"b":0,"changes":[],"comments":[],"doc":0,"e":"doc","kept":2,"name":"a","text":"YXab","v":2}
> {"b":0,"e":"project","handed":0,"left":2,"project":"p"}

# an operation that is no list
$ run
< {"do":"doc","doc":"a","project":"p","text":"ab"}
< {"as":"w","do":"raw","doc":"a","op":{},"source":1,"user":"u","v":0}
> {"b":0,"base":0,"doc":0,"e":"made","line":1,"n":0,"name":"a","project":"p","seat":0,"text":"ab"}
> {"at":0,"b":0,"doc":0,"e":"malformed","fault":"form","line":2,"n":1,"seat":0}
> {"b":0,"driver":0,"e":"closed","line":null,"n":2,"seat":0}
> {"b":0,"e":"ticked","line":null,"ms":30000,"n":3,"seat":0}
> {"b":0,"doc":0,"e":"acquired","line":null,"n":4,"seat":0,"token":1,"until":60000}
> {"b":0,"doc":0,"e":"flushed","line":null,"n":5,"seat":0,"token":1,"v":0}
> {"b":0,"doc":0,"e":"released","line":null,"n":6,"seat":0,"token":1}
> {"b":0,"changes":[],"comments":[],"doc":0,"e":"doc","kept":0,"name":"a","text":"ab","v":0}
> {"b":0,"e":"project","handed":0,"left":0,"project":"p"}

# a place past the greatest
$ run
< {"do":"doc","doc":"a","project":"p","text":"abc"}
< {"as":"w","do":"raw","doc":"a","op":[{"i":"x","p":1000000001}],"source":1,"user":"u","v":0}
> {"b":0,"base":0,"doc":0,"e":"made","line":1,"n":0,"name":"a","project":"p","seat":0,"text":"abc"}
> {"at":0,"b":0,"doc":0,"e":"malformed","fault":"form","line":2,"n":1,"seat":0}
> {"b":0,"driver":0,"e":"closed","line":null,"n":2,"seat":0}
> {"b":0,"e":"ticked","line":null,"ms":30000,"n":3,"seat":0}
> {"b":0,"doc":0,"e":"acquired","line":null,"n":4,"seat":0,"token":1,"until":60000}
> {"b":0,"doc":0,"e":"flushed","line":null,"n":5,"seat":0,"token":1,"v":0}
> {"b":0,"doc":0,"e":"released","line":null,"n":6,"seat":0,"token":1}
> {"b":0,"changes":[],"comments":[],"doc":0,"e":"doc","kept":0,"name":"a","text":"abc","v":0}
> {"b":0,"e":"project","handed":0,"left":0,"project":"p"}

# a text with a pair of surrogates
$ run
< {"do":"doc","doc":"a","project":"p","text":"ab"}
< {"as":"w","do":"raw","doc":"a","op":[{"i":"😀","p":1}],"source":1,"user":"u","v":0}
< {"as":"w","do":"raw","doc":"a","op":[{"d":"😀","p":0}],"source":2,"user":"u","v":1}
> {"b":0,"base":0,"doc":0,"e":"made","line":1,"n":0,"name":"a","project":"p","seat":0,"text":"ab"}
> {"b":0,"client":null,"doc":0,"dup":[],"e":"sent","line":2,"ms":0,"n":1,"number":0,"op":[{"i":"��","p":1}],"seat":0,"source":1,"track":false,"user":"u","v":0}
> {"at":0,"b":0,"doc":0,"e":"malformed","fault":"supplementary","line":3,"n":2,"seat":0}
> {"b":0,"driver":0,"e":"closed","line":null,"n":3,"seat":0}
> {"b":0,"e":"ticked","line":null,"ms":30000,"n":4,"seat":0}
> {"b":0,"doc":0,"e":"acquired","line":null,"n":5,"seat":0,"token":1,"until":60000}
> {"b":0,"doc":0,"e":"committed","line":null,"n":6,"op":[{"i":"��","p":1}],"out":"applied","seat":0,"ticket":1,"token":1,"v":0}
> {"b":0,"doc":0,"e":"released","line":null,"n":7,"seat":0,"token":1}
> {"b":0,"doc":0,"e":"acquired","line":null,"n":8,"seat":0,"token":2,"until":60000}
> {"b":0,"doc":0,"e":"flushed","line":null,"n":9,"seat":0,"token":2,"v":1}
> {"b":0,"doc":0,"e":"released","line":null,"n":10,"seat":0,"token":2}
> {"b":0,"changes":[],"comments":[],"doc":0,"e":"doc","kept":1,"name":"a","text":"a��b","v":1}
> {"b":0,"e":"project","handed":0,"left":1,"project":"p"}

# the same by escapes
$ run
< {"do":"doc","doc":"a","project":"p","text":"ab"}
< {"do":"raw","as":"w","doc":"a","user":"u","source":1,"v":0,"op":[{"i":"\ud83d\ude00","p":1}]}
> {"b":0,"base":0,"doc":0,"e":"made","line":1,"n":0,"name":"a","project":"p","seat":0,"text":"ab"}
> {"b":0,"client":null,"doc":0,"dup":[],"e":"sent","line":2,"ms":0,"n":1,"number":0,"op":[{"i":"��","p":1}],"seat":0,"source":1,"track":false,"user":"u","v":0}
> {"b":0,"driver":0,"e":"closed","line":null,"n":2,"seat":0}
> {"b":0,"e":"ticked","line":null,"ms":30000,"n":3,"seat":0}
> {"b":0,"doc":0,"e":"acquired","line":null,"n":4,"seat":0,"token":1,"until":60000}
> {"b":0,"doc":0,"e":"committed","line":null,"n":5,"op":[{"i":"��","p":1}],"out":"applied","seat":0,"ticket":1,"token":1,"v":0}
> {"b":0,"doc":0,"e":"released","line":null,"n":6,"seat":0,"token":1}
> {"b":0,"doc":0,"e":"acquired","line":null,"n":7,"seat":0,"token":2,"until":60000}
> {"b":0,"doc":0,"e":"flushed","line":null,"n":8,"seat":0,"token":2,"v":1}
> {"b":0,"doc":0,"e":"released","line":null,"n":9,"seat":0,"token":2}
> {"b":0,"changes":[],"comments":[],"doc":0,"e":"doc","kept":1,"name":"a","text":"a��b","v":1}
> {"b":0,"e":"project","handed":0,"left":1,"project":"p"}

# a document that was not made
$ run
< {"do":"doc","doc":"a","project":"p","text":"ab"}
< {"as":"w","do":"raw","doc":"zz","op":[{"i":"x","p":0}],"source":1,"user":"u","v":0}
> {"b":0,"base":0,"doc":0,"e":"made","line":1,"n":0,"name":"a","project":"p","seat":0,"text":"ab"}
> {"b":0,"e":"declined","line":2,"n":1,"seat":0,"session":0,"why":"no-doc"}
> {"b":0,"driver":0,"e":"closed","line":null,"n":2,"seat":0}
> {"b":0,"e":"ticked","line":null,"ms":30000,"n":3,"seat":0}
> {"b":0,"doc":0,"e":"acquired","line":null,"n":4,"seat":0,"token":1,"until":60000}
> {"b":0,"doc":0,"e":"flushed","line":null,"n":5,"seat":0,"token":1,"v":0}
> {"b":0,"doc":0,"e":"released","line":null,"n":6,"seat":0,"token":1}
> {"b":0,"changes":[],"comments":[],"doc":0,"e":"doc","kept":0,"name":"a","text":"ab","v":0}
> {"b":0,"e":"project","handed":0,"left":0,"project":"p"}
"#
}
