//! Keepers that are filled and asked, some of whose calls fail, against answers that are written here;
//! and what code over any keeper can prove.

ghost use Rattle.std.specs.Prelude.{◌≡◌, ◌≢◌, IsTrue, false, [], Some, IfOk};

use crate::{KeepFault, Keeper, MemoryKeeper, SureKeeper};
use ot_units::{Name, Units};
use ranges_tracker::{KeptDoc, Ranges};
use std::alloc::Global;
use std::test::Fail;

/// A call by name, with the version and the text where it puts a document; the version that is
/// answered; and the count of faults then.
type Step = (
    &'static str,
    Option<(u32, &'static str)>,
    Result<Option<u64>, KeepFault>,
    u64,
);

/// Of the calls of `get` the second and the fifth fail, and of those of `put` the third.
const STEPS: [Step; 14] = [
    ("a", None, Ok(None), 0),
    ("a", Some((1, "ab")), Ok(None), 0),
    ("b", Some((7, "x\ny")), Ok(None), 0),
    ("a", None, Err(KeepFault::Failed), 1),
    ("a", None, Ok(Some(1)), 1),
    ("a", Some((2, "abc")), Err(KeepFault::Failed), 2),
    ("a", None, Ok(Some(1)), 2),
    ("b", None, Err(KeepFault::Failed), 3),
    ("b", None, Ok(Some(7)), 3),
    ("b", Some((8, "")), Ok(None), 3),
    ("b", None, Ok(Some(8)), 3),
    ("a", None, Ok(Some(1)), 3),
    ("ab", None, Ok(None), 3),
    ("ab", Some((0, "z")), Ok(None), 3),
];

fn name(alloc: Global, text: &str) -> Result<Name, Fail> {
    Ok(Name::read(alloc, text)?.ok_or("a name")?)
}

// A document without tracked changes and comments.
fn plain(alloc: Global, text: &str, version: u32) -> Result<KeptDoc, Fail> {
    let text = Units::sanitized(alloc, text)?;
    if text.len() > 2_097_152 {
        return Err(Fail::from("too long"));
    }
    let ranges = Ranges::none(alloc);
    let doc = KeptDoc::make(alloc, text.as_slice(), u64::from(version), &ranges)?;
    Ok(doc)
}

// What a keeper answers: the version of what it gives, and none for what it takes.
fn answer<K: Keeper>(
    alloc: Global,
    keeper: &mut K,
    name: &Name,
    put: Option<KeptDoc>,
) -> Result<Option<u64>, KeepFault> {
    match put {
        Some(doc) => {
            keeper.put(alloc, name.as_str(), doc)?;
            Ok(None)
        }
        None => match keeper.get(alloc, name.as_str())? {
            Some(doc) => Ok(Some(doc.version())),
            None => Ok(None),
        },
    }
}

#[test]
fn a_keeper_fails_where_it_is_told_to(rt: HostRuntime) -> Result<(), Fail> {
    let alloc = rt.alloc();
    let mut keeper = MemoryKeeper::new(alloc, &[2, 5], &[3])?;
    for (of, put, want, faults) in &STEPS {
        let doc = match put {
            Some((version, text)) => Some(plain(alloc, text, *version)?),
            None => None,
        };
        let of = name(alloc, of)?;
        assert_eq!(rt; answer(alloc, &mut keeper, &of, doc), *want);
        assert_eq!(rt; keeper.faults(), *faults);
    }
    Ok(())
}

#[test]
fn a_sure_keeper_gives_what_it_took(rt: HostRuntime) -> Result<(), Fail> {
    let alloc = rt.alloc();
    let mut keeper = SureKeeper::new(alloc);
    let of = name(alloc, "a")?;
    assert_eq!(rt; answer(alloc, &mut keeper, &of, None), Ok(None));
    for (version, text) in [(1, "ab"), (2, "a\nb")] {
        let doc = plain(alloc, text, version)?;
        assert_eq!(rt; answer(alloc, &mut keeper, &of, Some(doc)), Ok(None));
        let found = keeper.get(alloc, of.as_str())?.ok_or("a document")?;
        assert_eq!(rt; found.version(), u64::from(version));
        assert_eq!(rt; found.text(alloc)?, Units::sanitized(alloc, text)?);
    }
    assert_eq!(rt; keeper.faults(), 0);
    Ok(())
}

// A keeper that tells nothing: it takes no document, and fails at each `put`.
#[derive(Drop)]
struct Forgetful {
    faults: u64,
}

impl Keeper for Forgetful {
    ghost tells = { false };

    ghost documents = { λ _. [] };

    ghost count = { λ keeper. keeper.faults };

    fn get(&mut self, _alloc: Global, _name: &str) -> Result<Option<KeptDoc>, KeepFault> {
        Ok(None)
    }

    fn put(&mut self, _alloc: Global, _name: &str, _doc: KeptDoc) -> Result<(), KeepFault> {
        self.faults = self.faults.saturating_add(1);
        Err(KeepFault::Failed)
    }

    fn faults(&self) -> u64 {
        self.faults
    }
}

// Keeps two documents, and asks for the first.
fn first_of_two<K: Keeper>(
    alloc: Global,
    keeper: &mut K,
    one: &Name,
    first: KeptDoc,
    two: &Name,
    second: KeptDoc,
) -> Result<Option<KeptDoc>, KeepFault>
    requires { one.now ≢ two.now }
    ensures { IsTrue K.tells → IfOk result (λ found. found ≡ Some first) }
{
    keeper.put(alloc, one.as_str(), first)?;
    keeper.put(alloc, two.as_str(), second)?;
    keeper.get(alloc, one.as_str())
}

#[test]
fn code_over_any_keeper(rt: HostRuntime) -> Result<(), Fail> {
    let alloc = rt.alloc();
    let (a, b) = (name(alloc, "a")?, name(alloc, "b")?);
    if a.same(&b) {
        return Err(Fail::from("one name"));
    }
    let mut keeper = SureKeeper::new(alloc);
    let (first, second) = (plain(alloc, "x", 1)?, plain(alloc, "y", 2)?);
    let found = first_of_two(alloc, &mut keeper, &a, first, &b, second)?;
    assert_eq!(rt; found.ok_or("a document")?.version(), 1);

    let mut keeper = Forgetful { faults: 0 };
    let (first, second) = (plain(alloc, "x", 1)?, plain(alloc, "y", 2)?);
    let found = first_of_two(alloc, &mut keeper, &a, first, &b, second);
    assert_eq!(rt; found.err(), Some(KeepFault::Failed));
    assert_eq!(rt; keeper.faults(), 1);
    assert_eq!(rt; answer(alloc, &mut keeper, &a, None), Ok(None));
    Ok(())
}
