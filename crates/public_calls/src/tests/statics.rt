// A great static table.
use static_dictionary::StaticTable;
use std::process::Abort;
use std::test::Fail;

pub fn many_texts(rt: &(impl Abort + AllocGlobal)) -> Result<(), Fail> {
    let mut file = String::from_str(rt.alloc(), "id,string\n")?;
    for number in 0..300_000u32 {
        writeln!(file, "{},{number:07}", 2 * number)?;
    }
    let table = StaticTable::read(rt.alloc(), file.as_bytes())?;
    for number in 0..300_000u32 {
        let text = format!(in rt.alloc(); "{number:07}")?;
        assert_eq!(rt; table.id(text.as_str()), Some(2 * number));
    }
    Ok(())
}
