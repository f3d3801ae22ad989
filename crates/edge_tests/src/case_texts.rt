//! Texts of cases that are refused, and what is printed of others.
use cases::{Case, Differences, Fault, Judge, report};
use std::alloc::Global;
use std::test::Fail;

/// Counts the words behind `count`, which have to be so many as `words` says, and compares them with the field of lines.
#[derive(Drop)]
struct Counts;

impl Judge for Counts {
    fn verbs(&self) -> &[&'static str] {
        &["count"]
    }

    fn difference(&mut self, alloc: Global, case: &Case) -> Result<Option<String>, Fault> {
        case.check_keys(&["words", ">", "least"])?;
        let words = case.split_words(alloc)?;
        let count = (words.len() as u64).max(case.number("least", 0)?);
        let mut all = Differences::none(alloc);
        all.compare_numbers("words", count, case.number_answer("words")?)?;
        all.compare_texts("text", case.words.as_str(), case.text_or_empty(">"))?;
        Ok(all.into_line())
    }
}

#[test]
fn refuses(rt: HostRuntime) -> Result<(), Fail> {
    for (text, line, why) in [
        ("", 0, "no case"),
        ("# nothing\n\nlet A b\n\ngroup a\n", 0, "no case"),
        ("count x\n", 1, "a case before a group"),
        ("words 1\n", 1, "an unknown line"),
        ("group a\n>x\n", 2, "an unknown line"),
        ("group a\n\ncount x\nword 1\n", 4, "an unknown line"),
        ("group a\ncount x\n!x\nwords 1\n", 3, "an unknown line"),
        ("group a\n\ncount x\n", 3, "a case without its answer"),
        (
            "group a\ncount x\nwords 1\nwords 1\n",
            4,
            "a line that stands twice",
        ),
        ("group a\ncount x\nwords one\n", 2, "no number"),
        (
            "group a\ncount \"x\nwords 1\n",
            2,
            "a quotation mark without another",
        ),
        ("let A b\nlet A c\n", 2, "a name that stands twice"),
        ("let A $B\n", 1, "an unknown name"),
        ("group a\n+ x\n", 2, "nothing to go on with"),
        ("let A b\n+two c\n", 2, "no number"),
    ] {
        let mut out = String::new(rt.alloc());
        let refused = report(rt.alloc(), &mut Counts, text, &mut out);
        assert_eq!(rt; refused, Err(Fault::At { line, why }), "at {text}");
    }
    Ok(())
}

#[test]
fn reports(rt: HostRuntime) -> Result<(), Fail> {
    let text =
        "let A a b\n+ , \n+2 c\n\ngroup one\n\ncount $A \"\"\nwords 4\n~a b\n~, cc \"\"\n\ngroup two\n\ncount a\nwords 2\n>a\n\ncount\nleast 1\nwords 1\n";
    let mut out = String::new(rt.alloc());
    let differing = report(rt.alloc(), &mut Counts, text, &mut out)?;
    assert_eq!(rt; differing, 1);
    assert_eq!(rt;
        out.as_str(),
        "one: 1\ntwo: 2\n  line 14: words: got 1, wanted 2; text, line 2: got no line, wanted \"\"\n"
    );
    Ok(())
}
