//! Scripts read, on lines that the form of a script names.
use session_lines::read_script;
use std::alloc::Global;
use std::test::Fail;

// A script and what it's read as in a row, with `'` for a quotation mark and `|` for a line feed.
const ROWS: &str = " => 0
{'do':'doc','doc':'main','project':'p-1_','text':'a\\né😀'} => Doc { doc: Name { text: 'main' }, project: Name { text: 'p-1_' }, text: Units { units: [97, 10, 233, 65533, 65533] }, v: 0 }|0
{'v':9007199254740991,'text':'','project':'p','doc':'d','do':'doc'}| => Doc { doc: Name { text: 'd' }, project: Name { text: 'p' }, text: Units { units: [] }, v: 9007199254740991 }|0
{'do':'tick','as':'s','ms':1000000000000} => Tick { session: 0, ms: 1000000000000 }|s 1
{'do':'raw','as':'s','doc':'d','user':'u','v':18446744073709551615,'op':{}} => Raw { session: 0, doc: Name { text: 'd' }, user: Name { text: 'u' }, source: 0, dup: Sources { sources: [] }, track: false, v: 18446744073709551615, op: Err(Form(0)) }|s 1
{'do':'raw','as':'s','doc':'d','user':'u','v':0,'op':[{'i':'x','p':1}],'source':999999,'dup':[7,9],'track':true} => Raw { session: 0, doc: Name { text: 'd' }, user: Name { text: 'u' }, source: 999999, dup: Sources { sources: [7, 9] }, track: true, v: 0, op: Ok(Op { comps: [Ins(1, Units { units: [120] })] }) }|s 1
{'do':'join','as':'s','doc':'d','user':'u'}|{'do':'join','as':'s','doc':'d','user':'w','track':true} => Join { session: 0, doc: Name { text: 'd' }, user: Name { text: 'u' }, track: false }|Join { session: 0, doc: Name { text: 'd' }, user: Name { text: 'w' }, track: true }|s 1
{'do':'rejoin','as':'b'}|{'do':'leave','as':'a'}|{'do':'send','as':'b'}|{'do':'resend','as':'c'} => Rejoin { session: 0 }|Leave { session: 1 }|Send { session: 0 }|Resend { session: 2 }|b a c 3
{'do':'recv','as':'a'}|{'do':'sync','as':'a'}|{'do':'finish','as':'a'}| => Recv { session: 0 }|Sync { session: 0 }|Finish { session: 0 }|a 1
{'do':'ins','as':'a','p':4294967295,'s':'\\ud83d\\ude00'} => Ins { session: 0, p: 4294967295, s: Units { units: [65533, 65533] } }|a 1
{'do':'del','as':'a','p':0,'n':4294967295}|{'do':'com','as':'a','p':1,'n':0,'t':4294967295} => Del { session: 0, p: 0, n: 4294967295 }|Com { session: 0, p: 1, n: 0, t: 4294967295 }|a 1
{'do':'drain','as':'a','doc':'d'}|{'do':'hold','as':'a','doc':'d'} => Drain { session: 0, doc: Name { text: 'd' } }|Hold { session: 0, doc: Name { text: 'd' } }|a 1
{'do':'flush','as':'a','doc':'d'}|{'do':'unload','as':'a','doc':'d'} => Flush { session: 0, doc: Name { text: 'd' } }|Unload { session: 0, doc: Name { text: 'd' } }|a 1
{'do':'hand','as':'a','project':'p','n':0}| => Hand { session: 0, project: Name { text: 'p' }, n: 0 }|a 1
| => Json(1)
{'do':'send','as':'a'}|| => Json(2)
{'do':'send','as':'a' => Json(1)
{'do':'send','as':'a'}|{'do':'ins','as':'a','p':0,'s':'\\ud800'} => Json(2)
{'do':'send','as':'a'} {'do':'send','as':'a'} => Json(1)
[] => Form(1)
'do' => Form(1)
{} => Form(1)
{'do':1,'as':'a'} => Form(1)
{'do':'sends','as':'a'} => Unknown(1)
{'do':'Send'} => Unknown(1)
{'do':''}|[] => Unknown(1)
[]|{'do':'x'} => Form(1)
{'do':'send','as':'a'}|{'do':'send','as':'a'}|{'do':'accept','as':'a'}|? => Unknown(3)
{'do':'send'} => Form(1)
{'do':'send','as':'a','n':1} => Form(1)
{'do':'send','as':'a b'} => Form(1)
{'do':'send','as':''} => Form(1)
{'do':'send','as':null} => Form(1)
{'do':'doc','doc':'d','project':'p'} => Form(1)
{'do':'doc','doc':'d','project':'p','text':1} => Form(1)
{'do':'doc','doc':'d','project':'','text':''} => Form(1)
{'do':'doc','doc':'d','project':'p','text':'','as':'a'} => Form(1)
{'do':'doc','doc':'d','project':'p','text':'','v':9007199254740992} => Form(1)
{'do':'doc','doc':'d','project':'p','text':'','v':null} => Form(1)
{'do':'doc','doc':'d','project':'p','text':'','v':1.0} => Form(1)
{'do':'doc','doc':'d','project':'p','text':''}|{'do':'doc','doc':'d','project':'q','text':''} => Form(2)
{'do':'send','as':'a'}|{'do':'doc','doc':'d','project':'p','text':''} => Form(2)
{'do':'tick','as':'a','ms':1000000000001} => Form(1)
{'do':'tick','as':'a','ms':-1} => Form(1)
{'do':'raw','as':'s','doc':'d','user':'u','v':0} => Form(1)
{'do':'raw','as':'s','doc':'d','user':'u','v':18446744073709551616,'op':[]} => Form(1)
{'do':'raw','as':'s','doc':'d','user':'u','v':0,'op':[],'source':1000000} => Form(1)
{'do':'raw','as':'s','doc':'d','user':'u','v':0,'op':[],'dup':[1,-1]} => Form(1)
{'do':'raw','as':'s','doc':'d','user':'u','v':0,'op':[],'dup':1} => Form(1)
{'do':'raw','as':'s','doc':'d','user':'u','v':0,'op':[],'track':1} => Form(1)
{'do':'raw','as':'s','doc':'d','user':'u','v':0,'op':[],'tracks':true} => Form(1)
{'do':'join','as':'s','doc':'d'} => Form(1)
{'do':'join','as':'s','doc':'d','user':'u','track':null} => Form(1)
{'do':'join','as':'s','doc':'d','user':'u'}|{'do':'join','as':'t','doc':'e','user':'u'}|{'do':'join','as':'s','doc':'e','user':'u'} => Form(3)
{'do':'ins','as':'a','p':0,'s':''} => Form(1)
{'do':'ins','as':'a','p':4294967296,'s':'x'} => Form(1)
{'do':'ins','as':'a','p':0,'s':'x','n':1} => Form(1)
{'do':'del','as':'a','p':0,'n':0} => Form(1)
{'do':'del','as':'a','p':0,'n':4294967296} => Form(1)
{'do':'del','as':'a','n':1} => Form(1)
{'do':'com','as':'a','p':0,'n':0,'t':4294967296} => Form(1)
{'do':'com','as':'a','p':0,'n':0} => Form(1)
{'do':'drain','as':'a'} => Form(1)
{'do':'flush','as':'a','doc':'d/e'} => Form(1)
{'do':'unload','as':'a','doc':'d','project':'p'} => Form(1)
{'do':'hand','as':'a','project':'p'} => Form(1)
{'do':'hand','as':'a','project':'p','n':'1'} => Form(1)";

// The lines of a script that a row spells.
fn spelled(alloc: Global, row: &str) -> Result<String, Fail> {
    let mut text = String::new(alloc);
    for c in row.chars() {
        match c {
            '\'' => text.push('"')?,
            '|' => text.push('\n')?,
            _ => text.push(c)?,
        }
    }
    Ok(text)
}

// The lines of a script, the names of its sessions and their number, or its fault.
fn shown(alloc: Global, text: &str) -> Result<String, Fail> {
    let script = match read_script(alloc, text.as_bytes()) {
        Ok(script) => script,
        Err(fault) => return Ok(format!(in alloc; "{fault:?}")?),
    };
    let mut shown = String::new(alloc);
    for line in script.lines.as_slice() {
        let line = format!(in alloc; "{line:?}\n")?;
        shown.push_str(line.as_str())?;
    }
    for name in script.names.as_slice() {
        shown.push_str(name.as_str())?;
        shown.push_str(" ")?;
    }
    let sessions = script.sessions;
    let sessions = format!(in alloc; "{sessions}")?;
    shown.push_str(sessions.as_str())?;
    Ok(shown)
}

#[test]
fn reads_the_rows(rt: HostRuntime) -> Result<(), Fail> {
    for row in ROWS.lines() {
        let (script, want) = row.split_once(" => ").ok_or("a row")?;
        let script = spelled(rt.alloc(), script)?;
        let want = spelled(rt.alloc(), want)?;
        let read = shown(rt.alloc(), script.as_str())?;
        assert_eq!(rt; read.as_str(), want.as_str(), "of {row}");
    }
    Ok(())
}

// So many lines, each with its number for a `#`.
fn repeated(alloc: Global, line: &str, times: u32) -> Result<String, Fail> {
    let (before, behind) = line.split_once('#').ok_or("a number")?;
    let mut lines = String::new(alloc);
    for k in 0..times {
        let line = format!(in alloc; "{before}{k}{behind}")?;
        lines.push_str(line.as_str())?;
    }
    Ok(lines)
}

#[test]
fn keeps_to_the_limits(rt: HostRuntime) -> Result<(), Fail> {
    let alloc = rt.alloc();
    let doc = spelled(alloc, "{'do':'doc','doc':'d#','project':'p','text':''}|")?;
    let leave = spelled(alloc, "{'do':'leave','as':'s#'}|")?;
    let docs = repeated(alloc, doc.as_str(), 1_000)?;
    let leaves = repeated(alloc, leave.as_str(), 256)?;
    let good = format!(in alloc; "{docs}{leaves}{leaves}")?;
    let script = read_script(alloc, good.as_str().as_bytes()).map_err(|_| "a script")?;
    assert_eq!(rt; script.lines.as_slice().len(), 1_512);
    assert_eq!(rt; script.sessions, 256);
    let docs = repeated(alloc, doc.as_str(), 1_001)?;
    let read = shown(alloc, docs.as_str())?;
    assert_eq!(rt; read.as_str(), "Form(1001)");
    let leaves = repeated(alloc, leave.as_str(), 257)?;
    let read = shown(alloc, leaves.as_str())?;
    assert_eq!(rt; read.as_str(), "Form(257)");
    Ok(())
}

#[test]
fn reads_a_long_text(rt: HostRuntime) -> Result<(), Fail> {
    let alloc = rt.alloc();
    // 2,097,152 units
    let text = repeated(alloc, "#abcdefghijklmnopqrstuvwxyzABCDE", 1)?;
    let text = doubled(alloc, text, 16)?;
    let doc = spelled(alloc, "{'do':'doc','doc':'d','project':'p','text':'#'}|?")?;
    let (before, behind) = doc.as_str().split_once('#').ok_or("a text")?;
    let longest = format!(in alloc; "{before}{text}{behind}")?;
    let read = shown(alloc, longest.as_str())?;
    assert_eq!(rt; read.as_str(), "Json(2)");
    let longer = format!(in alloc; "{before}{text}a{behind}")?;
    let read = shown(alloc, longer.as_str())?;
    assert_eq!(rt; read.as_str(), "Form(1)");
    Ok(())
}

// A text doubled so many times.
fn doubled(alloc: Global, text: String, times: u32) -> Result<String, Fail> {
    let mut text = text;
    for _ in 0..times {
        text = format!(in alloc; "{text}{text}")?;
    }
    Ok(text)
}
