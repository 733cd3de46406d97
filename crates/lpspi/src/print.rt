// What is printed of elements and accesses: digits in capitals, and accesses as document 01's `buslog` prints them.
use std::io;
use words::word::Word;

// Elements behind a name; nothing where there are none.
pub(crate) fn elements<T: Word>(out: &impl Print, name: &str, elements: &[T]) -> io::Result<()> {
    if elements.is_empty() {
        return Ok(());
    }
    print!(out; "{name}")?;
    let digits = T::width().bits() as usize / 4;
    for element in elements {
        print!(out; " {:0digits$X}", element.into_word())?;
    }
    println!(out)
}

// A line for each access made that is in the log.
pub(crate) fn accesses(out: &impl Print, log: &[u32], made: usize) -> io::Result<()> {
    let (pairs, _) = log.as_chunks::<2>();
    for &[at, value] in pairs.iter().take(made) {
        let kind = if at < 0x1000 { 'R' } else { 'W' };
        println!(out; "{kind} {:02X} {value:08X}", at % 0x100)?;
    }
    Ok(())
}
