//! Lines and words that are none.

pub(crate) fn refused_rows() -> &'static str {
    r#"
# a line that is cut
$ run
= 3
< {"do":"doc","doc":"a","project":"p","text":"abc"}
< {"do":"raw"
> fault: line 2 json

# an empty line
$ run
= 3
< {"do":"doc","doc":"a","project":"p","text":"abc"}
< 
< {"do":"raw","as":"w","doc":"a","user":"u","source":1,"v":0,"op":[{"i":"X","p":1}]}
> fault: line 2 json

# a field too many
$ run
= 3
< {"do":"doc","doc":"a","project":"p","text":"abc"}
< {"do":"raw","x":1,"as":"w","doc":"a","user":"u","source":1,"v":0,"op":[{"i":"X","p":1}]}
> fault: line 2 form

# an unknown command
$ run
= 3
< {"do":"doc","doc":"a","project":"p","text":"abc"}
< {"do":"row","as":"w","doc":"a","user":"u","source":1,"v":0,"op":[{"i":"X","p":1}]}
> fault: line 2 unknown

# accept is no command
$ run
= 3
< {"do":"doc","doc":"a","project":"p","text":"ab"}
< {"as":"w","do":"accept","doc":"a","ids":[[0,0]]}
> fault: line 2 unknown

# open is no command
$ run
= 3
< {"as":"w","do":"open","doc":"a","project":"p"}
> fault: line 1 unknown

# 200 lists in each other
$ run
= 3
< {"do":"doc","doc":"a","project":"p","text":"abc"}
< {"do":"raw","as":"w","doc":"a","user":"u","v":0,"op":[[[[[[[[[[[[[[[[[[[[[[[[[[[[[[[[[[[[[[[[[[[[[[[[[[[[[[[[[[[[[[[[[[[[[[[[[[[[[[[[[[[[[[[[[[[[[[[[[[[[[[[[[[[[[[[[[[[[[[[[[[[[[[[[[[[[[[[[[[[[[[[[[[[[[[[[[[[[[[[[[[[[[[[[[[[[[[[[[[[[[[[[[[[[[[[[[[[[[[[[]]]]]]]]]]]]]]]]]]]]]]]]]]]]]]]]]]]]]]]]]]]]]]]]]]]]]]]]]]]]]]]]]]]]]]]]]]]]]]]]]]]]]]]]]]]]]]]]]]]]]]]]]]]]]]]]]]]]]]]]]]]]]]]]]]]]]]]]]]]]]]]]]]]]]]]]]]]]]]]]]]]]]]]]]]]]]]]]]]]]]]]]]]]]]]]]]]]]]]]]}
> fault: line 2 json

# half a pair of surrogates
$ run
= 3
< {"do":"doc","doc":"a","project":"p","text":"abc"}
< {"do":"raw","as":"w","doc":"a","user":"u","v":0,"op":[{"i":"\ud800","p":0}]}
> fault: line 2 json

# a command that is not built
$ run
= 3
< {"do":"doc","doc":"a","project":"p","text":"ab"}
< {"as":"w","do":"unload","doc":"a"}
> fault: line 2 unbuilt

# no words
$
= 2
< {"do":"doc","doc":"a","project":"p","text":"abc"}
< {"do":"raw","as":"w","doc":"a","user":"u","source":1,"v":0,"op":[{"i":"X","p":1}]}
> fault: words

# a start without the rest
$ gen --start 1
= 2
< {"do":"doc","doc":"a","project":"p","text":"abc"}
< {"do":"raw","as":"w","doc":"a","user":"u","source":1,"v":0,"op":[{"i":"X","p":1}]}
> fault: words

# help is no word
$ --help
= 2
< {"do":"doc","doc":"a","project":"p","text":"abc"}
< {"do":"raw","as":"w","doc":"a","user":"u","source":1,"v":0,"op":[{"i":"X","p":1}]}
> fault: words

# a word twice
$ run run
= 2
< {"do":"doc","doc":"a","project":"p","text":"abc"}
< {"do":"raw","as":"w","doc":"a","user":"u","source":1,"v":0,"op":[{"i":"X","p":1}]}
> fault: words

# an option without its number
$ run --workers
= 2
< {"do":"doc","doc":"a","project":"p","text":"abc"}
< {"do":"raw","as":"w","doc":"a","user":"u","source":1,"v":0,"op":[{"i":"X","p":1}]}
> fault: words

# too many workers
$ run --workers 33
= 2
< {"do":"doc","doc":"a","project":"p","text":"abc"}
< {"do":"raw","as":"w","doc":"a","user":"u","source":1,"v":0,"op":[{"i":"X","p":1}]}
> fault: words

# the version is no word
$ --version
= 2
< {"do":"doc","doc":"a","project":"p","text":"abc"}
< {"do":"raw","as":"w","doc":"a","user":"u","source":1,"v":0,"op":[{"i":"X","p":1}]}
> fault: words
"#
}
