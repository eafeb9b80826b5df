//! History that is handed out.

pub(crate) fn history_rows() -> &'static str {
    r#"
# two projects, in part, all that is left, nothing, and a project of no document
$ run
< {"do":"doc","doc":"a","project":"p","text":"abc"}
< {"do":"doc","doc":"b","project":"q","text":"xy"}
< {"do":"doc","doc":"c","project":"p","text":"de"}
< {"do":"raw","as":"w","doc":"a","user":"u","source":1,"v":0,"op":[{"i":"X","p":1}]}
< {"do":"drain","as":"w","doc":"a"}
< {"do":"raw","as":"w","doc":"b","user":"v","source":2,"v":0,"op":[{"i":"Y","p":0}]}
< {"do":"drain","as":"w","doc":"b"}
< {"do":"tick","as":"w","ms":5}
< {"do":"raw","as":"w","doc":"c","user":"u","source":3,"v":0,"op":[{"i":"Z","p":2}]}
< {"do":"drain","as":"w","doc":"c"}
< {"do":"hand","as":"w","project":"p","n":1}
< {"do":"hand","as":"w","project":"q","n":5}
< {"do":"hand","as":"w","project":"p","n":0}
< {"do":"hand","as":"w","project":"r","n":1}
< {"do":"raw","as":"w","doc":"a","user":"v","source":4,"v":1,"op":[{"d":"a","p":0}]}
< {"do":"drain","as":"w","doc":"a"}
< {"do":"hand","as":"w","project":"p","n":9}
< {"do":"hand","as":"w","project":"p","n":1}
> {"b":0,"base":0,"doc":0,"e":"made","line":1,"n":0,"name":"a","project":"p","seat":0,"text":"abc"}
> {"b":0,"base":0,"doc":1,"e":"made","line":2,"n":1,"name":"b","project":"q","seat":0,"text":"xy"}
> {"b":0,"base":0,"doc":2,"e":"made","line":3,"n":2,"name":"c","project":"p","seat":0,"text":"de"}
> {"b":0,"client":null,"doc":0,"dup":[],"e":"sent","line":4,"ms":0,"n":3,"number":0,"op":[{"i":"X","p":1}],"seat":0,"source":1,"track":false,"user":"u","v":0}
> {"b":0,"doc":0,"e":"acquired","line":5,"n":4,"seat":0,"token":1,"until":30000}
> {"b":0,"doc":0,"e":"committed","line":5,"n":5,"op":[{"i":"X","p":1}],"out":"applied","seat":0,"ticket":3,"token":1,"v":0}
> {"b":0,"doc":0,"e":"released","line":5,"n":6,"seat":0,"token":1}
> {"b":0,"client":null,"doc":1,"dup":[],"e":"sent","line":6,"ms":0,"n":7,"number":0,"op":[{"i":"Y","p":0}],"seat":0,"source":2,"track":false,"user":"v","v":0}
> {"b":0,"doc":1,"e":"acquired","line":7,"n":8,"seat":0,"token":2,"until":30000}
> {"b":0,"doc":1,"e":"committed","line":7,"n":9,"op":[{"i":"Y","p":0}],"out":"applied","seat":0,"ticket":7,"token":2,"v":0}
> {"b":0,"doc":1,"e":"released","line":7,"n":10,"seat":0,"token":2}
> {"b":0,"e":"ticked","line":8,"ms":5,"n":11,"seat":0}
> {"b":0,"client":null,"doc":2,"dup":[],"e":"sent","line":9,"ms":5,"n":12,"number":0,"op":[{"i":"Z","p":2}],"seat":0,"source":3,"track":false,"user":"u","v":0}
> {"b":0,"doc":2,"e":"acquired","line":10,"n":13,"seat":0,"token":3,"until":30005}
> {"b":0,"doc":2,"e":"committed","line":10,"n":14,"op":[{"i":"Z","p":2}],"out":"applied","seat":0,"ticket":12,"token":3,"v":0}
> {"b":0,"doc":2,"e":"released","line":10,"n":15,"seat":0,"token":3}
> {"b":0,"e":"handed","items":[{"doc":0,"len":3,"ms":0,"op":[{"i":"X","p":1}],"user":"u","v":0}],"line":11,"n":16,"project":"p","seat":0}
> {"b":0,"e":"handed","items":[{"doc":1,"len":2,"ms":0,"op":[{"i":"Y","p":0}],"user":"v","v":0}],"line":12,"n":17,"project":"q","seat":0}
> {"b":0,"e":"handed","items":[],"line":13,"n":18,"project":"p","seat":0}
> {"b":0,"e":"declined","line":14,"n":19,"seat":0,"session":0,"why":"no-project"}
> {"b":0,"client":null,"doc":0,"dup":[],"e":"sent","line":15,"ms":5,"n":20,"number":0,"op":[{"d":"a","p":0}],"seat":0,"source":4,"track":false,"user":"v","v":1}
> {"b":0,"doc":0,"e":"acquired","line":16,"n":21,"seat":0,"token":4,"until":30005}
> {"b":0,"doc":0,"e":"committed","line":16,"n":22,"op":[{"d":"a","p":0}],"out":"applied","seat":0,"ticket":20,"token":4,"v":1}
> {"b":0,"doc":0,"e":"released","line":16,"n":23,"seat":0,"token":4}
> {"b":0,"e":"handed","items":[{"doc":2,"len":2,"ms":5,"op":[{"i":"Z","p":2}],"user":"u","v":0},{"doc":0,"len":4,"ms":5,"op":[{"d":"a","p":0}],"user":"v","v":1}],"line":17,"n":24,"project":"p","seat":0}
> {"b":0,"e":"handed","items":[],"line":18,"n":25,"project":"p","seat":0}
> {"b":0,"driver":0,"e":"closed","line":null,"n":26,"seat":0}
> {"b":0,"e":"ticked","line":null,"ms":30000,"n":27,"seat":0}
> {"b":0,"doc":0,"e":"acquired","line":null,"n":28,"seat":0,"token":5,"until":60005}
> {"b":0,"doc":0,"e":"flushed","line":null,"n":29,"seat":0,"token":5,"v":2}
> {"b":0,"doc":0,"e":"released","line":null,"n":30,"seat":0,"token":5}
> {"b":0,"doc":1,"e":"acquired","line":null,"n":31,"seat":0,"token":6,"until":60005}
> {"b":0,"doc":1,"e":"flushed","line":null,"n":32,"seat":0,"token":6,"v":1}
> {"b":0,"doc":1,"e":"released","line":null,"n":33,"seat":0,"token":6}
> {"b":0,"doc":2,"e":"acquired","line":null,"n":34,"seat":0,"token":7,"until":60005}
> {"b":0,"doc":2,"e":"flushed","line":null,"n":35,"seat":0,"token":7,"v":1}
> {"b":0,"doc":2,"e":"released","line":null,"n":36,"seat":0,"token":7}
> {"b":0,"changes":[],"comments":[],"doc":0,"e":"doc","kept":2,"name":"a","text":"Xbc","v":2}
> {"b":0,"changes":[],"comments":[],"doc":1,"e":"doc","kept":1,"name":"b","text":"Yxy","v":1}
> {"b":0,"changes":[],"comments":[],"doc":2,"e":"doc","kept":1,"name":"c","text":"deZ","v":1}
> {"b":0,"e":"project","handed":3,"left":0,"project":"p"}
> {"b":0,"e":"project","handed":1,"left":0,"project":"q"}

# a usual session: two clients, a flush, and the first part of the history
$ run
< {"do":"doc","doc":"main","project":"thesis","text":"\\documentclass{article}\n\\begin{document}\n\\section{Intro}\nWe measure tides.\n\\end{document}"}
< {"do":"join","as":"ana","doc":"main","user":"ana"}
< {"do":"join","as":"ben","doc":"main","user":"ben","track":true}
< {"do":"ins","as":"ana","p":68,"s":"the "}
< {"do":"send","as":"ana"}
< {"do":"ins","as":"ben","p":73,"s":" daily"}
< {"do":"del","as":"ben","p":60,"n":7}
< {"do":"ins","as":"ben","p":60,"s":"record"}
< {"do":"send","as":"ben"}
< {"do":"com","as":"ana","p":50,"n":5,"t":1}
< {"do":"sync","as":"ana"}
< {"do":"send","as":"ana"}
< {"do":"sync","as":"ben"}
< {"do":"sync","as":"ana"}
< {"do":"flush","as":"ana","doc":"main"}
< {"do":"hand","as":"ana","project":"thesis","n":2}
< {"do":"leave","as":"ben"}
< {"do":"ins","as":"ana","p":0,"s":"% draft\n"}
< {"do":"send","as":"ana"}
< {"do":"rejoin","as":"ben"}
< {"do":"sync","as":"ben"}
> {"b":0,"base":0,"doc":0,"e":"made","line":1,"n":0,"name":"main","project":"thesis","seat":0,"text":"\\documentclass{article}\n\\begin{document}\n\\section{Intro}\nWe measure tides.\n\\end{document}"}
> {"b":0,"client":0,"doc":0,"e":"joined","from":null,"line":2,"n":1,"seat":0,"source":1000001,"track":false,"user":"ana","v":0}
> {"b":0,"client":1,"doc":0,"e":"joined","from":null,"line":3,"n":2,"seat":0,"source":1000002,"track":true,"user":"ben","v":0}
> {"b":0,"client":0,"e":"edited","line":4,"n":3,"op":[{"i":"the ","p":68}],"seat":0}
> {"b":0,"client":0,"doc":0,"dup":[],"e":"sent","line":5,"ms":0,"n":4,"number":1,"op":[{"i":"the ","p":68}],"seat":0,"source":1000001,"track":false,"user":"ana","v":0}
> {"b":0,"client":1,"e":"edited","line":6,"n":5,"op":[{"i":" daily","p":73}],"seat":0}
> {"b":0,"client":1,"e":"edited","line":7,"n":6,"op":[{"d":"measure","p":60}],"seat":0}
> {"b":0,"client":1,"e":"edited","line":8,"n":7,"op":[{"i":"record","p":60}],"seat":0}
> {"b":0,"client":1,"doc":0,"dup":[],"e":"sent","line":9,"ms":0,"n":8,"number":1,"op":[{"i":" daily","p":73},{"d":"measure","p":60},{"i":"record","p":60}],"seat":0,"source":1000002,"track":true,"user":"ben","v":0}
> {"b":0,"client":0,"e":"edited","line":10,"n":9,"op":[{"c":"Intro","p":50,"t":1}],"seat":0}
> {"b":0,"doc":0,"e":"acquired","line":11,"n":10,"seat":0,"token":1,"until":30000}
> {"b":0,"doc":0,"e":"committed","line":11,"n":11,"op":[{"i":"the ","p":68}],"out":"applied","seat":0,"ticket":4,"token":1,"v":0}
> {"b":0,"doc":0,"e":"released","line":11,"n":12,"seat":0,"token":1}
> {"b":0,"doc":0,"e":"acquired","line":11,"n":13,"seat":0,"token":2,"until":30000}
> {"b":0,"doc":0,"e":"committed","line":11,"n":14,"op":[{"i":" daily","p":77},{"d":"measure","p":60},{"i":"record","p":60}],"out":"applied","seat":0,"ticket":8,"token":2,"v":1}
> {"b":0,"doc":0,"e":"released","line":11,"n":15,"seat":0,"token":2}
> {"b":0,"client":0,"e":"got","line":11,"msg":"ack","n":16,"seat":0,"v":0}
> {"b":0,"client":0,"e":"got","line":11,"msg":"op","n":17,"seat":0,"v":1}
> {"b":0,"client":0,"doc":0,"dup":[],"e":"sent","line":12,"ms":0,"n":18,"number":2,"op":[{"c":"Intro","p":50,"t":1}],"seat":0,"source":1000001,"track":false,"user":"ana","v":2}
> {"b":0,"doc":0,"e":"acquired","line":13,"n":19,"seat":0,"token":3,"until":30000}
> {"b":0,"doc":0,"e":"committed","line":13,"n":20,"op":[{"c":"Intro","p":50,"t":1}],"out":"applied","seat":0,"ticket":18,"token":3,"v":2}
> {"b":0,"doc":0,"e":"released","line":13,"n":21,"seat":0,"token":3}
> {"b":0,"client":1,"e":"got","line":13,"msg":"op","n":22,"seat":0,"v":0}
> {"b":0,"client":1,"e":"got","line":13,"msg":"ack","n":23,"seat":0,"v":1}
> {"b":0,"client":1,"e":"got","line":13,"msg":"op","n":24,"seat":0,"v":2}
> {"b":0,"client":0,"e":"got","line":14,"msg":"ack","n":25,"seat":0,"v":2}
> {"b":0,"doc":0,"e":"acquired","line":15,"n":26,"seat":0,"token":4,"until":30000}
> {"b":0,"doc":0,"e":"flushed","line":15,"n":27,"seat":0,"token":4,"v":3}
> {"b":0,"doc":0,"e":"released","line":15,"n":28,"seat":0,"token":4}
> {"b":0,"e":"handed","items":[{"doc":0,"len":89,"ms":0,"op":[{"i":"the ","p":68}],"user":"ana","v":0},{"doc":0,"len":93,"ms":0,"op":[{"i":" daily","p":77},{"d":"measure","p":60},{"i":"record","p":60}],"user":"ben","v":1}],"line":16,"n":29,"project":"thesis","seat":0}
> {"b":0,"client":1,"e":"left","line":17,"n":30,"seat":0}
> {"b":0,"client":0,"e":"edited","line":18,"n":31,"op":[{"i":"% draft\n","p":0}],"seat":0}
> {"b":0,"client":0,"doc":0,"dup":[],"e":"sent","line":19,"ms":0,"n":32,"number":3,"op":[{"i":"% draft\n","p":0}],"seat":0,"source":1000001,"track":false,"user":"ana","v":3}
> {"b":0,"client":1,"doc":0,"e":"joined","from":3,"line":20,"n":33,"seat":0,"source":1000033,"track":true,"user":"ben","v":3}
> {"b":0,"doc":0,"e":"acquired","line":21,"n":34,"seat":0,"token":5,"until":30000}
> {"b":0,"doc":0,"e":"committed","line":21,"n":35,"op":[{"i":"% draft\n","p":0}],"out":"applied","seat":0,"ticket":32,"token":5,"v":3}
> {"b":0,"doc":0,"e":"released","line":21,"n":36,"seat":0,"token":5}
> {"b":0,"client":1,"e":"got","line":21,"msg":"op","n":37,"seat":0,"v":3}
> {"b":0,"driver":0,"e":"closed","line":null,"n":38,"seat":0}
> {"b":0,"e":"ticked","line":null,"ms":30000,"n":39,"seat":0}
> {"b":0,"client":0,"e":"got","line":null,"msg":"ack","n":40,"seat":0,"v":3}
> {"b":0,"doc":0,"e":"acquired","line":null,"n":41,"seat":0,"token":6,"until":60000}
> {"b":0,"doc":0,"e":"flushed","line":null,"n":42,"seat":0,"token":6,"v":4}
> {"b":0,"doc":0,"e":"released","line":null,"n":43,"seat":0,"token":6}
> {"b":0,"changes":[{"at":68,"id":[1,2],"kind":"ins","ms":0,"text":"record","user":"ben"},{"at":74,"id":[1,1],"kind":"del","ms":0,"text":"measure","user":"ben"},{"at":84,"id":[1,0],"kind":"ins","ms":0,"text":" daily","user":"ben"}],"comments":[{"at":58,"t":1,"text":"Intro"}],"doc":0,"e":"doc","kept":4,"name":"main","text":"% draft\n\\documentclass{article}\n\\begin{document}\n\\section{Intro}\nWe record the tides daily.\n\\end{document}","v":4}
> {"b":0,"client":0,"doc":0,"e":"client","flight":null,"name":"ana","pending":[],"state":"joined","text":"% draft\n\\documentclass{article}\n\\begin{document}\n\\section{Intro}\nWe record the tides daily.\n\\end{document}","v":4}
> {"b":0,"client":1,"doc":0,"e":"client","flight":null,"name":"ben","pending":[],"state":"joined","text":"% draft\n\\documentclass{article}\n\\begin{document}\n\\section{Intro}\nWe record the tides daily.\n\\end{document}","v":4}
> {"b":0,"e":"project","handed":2,"left":2,"project":"thesis"}
"#
}
