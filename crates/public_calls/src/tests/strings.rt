// Session tables: a great one, and one that is cut back.
use session_dictionary::SessionTable;
use std::process::Abort;
use std::test::Fail;

pub fn many_strings(rt: &(impl Abort + AllocGlobal)) -> Result<(), Fail> {
    let mut table = SessionTable::new(rt.alloc(), 1_073_741_824);
    for number in 0..300_000u32 {
        let text = format!(in rt.alloc(); "{number:07}")?;
        assert_eq!(rt; table.add(text.as_str()), Ok(2 * number + 1));
    }
    for number in 0..300_000u32 {
        let text = format!(in rt.alloc(); "{number:07}")?;
        assert_eq!(rt; table.id(text.as_str()), Some(2 * number + 1));
    }
    Ok(())
}

pub fn a_string_that_comes_twice_has_its_first_identifier(rt: &(impl Abort + AllocGlobal)) {
    let mut table = SessionTable::new(rt.alloc(), 16);
    let none = table.mark();
    assert_eq!(rt; table.add("a"), Ok(1));
    let one = table.mark();
    assert_eq!(rt; table.add("a"), Ok(3));
    assert_eq!(rt; table.id("a"), Some(1));
    table.back_to(one);
    assert_eq!(rt; table.id("a"), Some(1));
    table.back_to(none);
    assert_eq!(rt; table.id("a"), None);
}
