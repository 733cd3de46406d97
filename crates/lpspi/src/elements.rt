// Calls on elements of a width: words, buffers and transfers.
use crate::line::{ELEMENTS, Line};
use crate::names::{Elements, Transfer};
use crate::print;
use crate::result::Answer;
use std::io;
use transfers::exchange::exchange;
use transfers::exchange_separate::exchange_separate;
use transfers::read_no_write::read_no_write;
use transfers::write_no_read::write_no_read;
use words::buffer::{pack_words, unpack_words};
use words::longer::longer;
use words::pack::pack;
use words::transaction::Transaction;
use words::unpack::unpack;
use words::width::Width;
use words::word::Word;

// The elements of a list, which they fit, at the front of a buffer.
fn fill<'a, T: Word>(list: &[u32], buffer: &'a mut [T]) -> &'a mut [T] {
    for (element, number) in buffer.iter_mut().zip(list) {
        *element = T::from_word(*number);
    }
    let len = list.len().min(buffer.len());
    &mut buffer[..len]
}

// Elements a word, the dummy, and the words of so many elements.
fn show_width(out: &impl Print, width: Width, elements: usize) -> io::Result<()> {
    let (per_word, dummy) = (width.per_word(), width.dummy());
    println!(out; "{per_word} {dummy:08X} {}", width.word_count(elements))
}

// The buffers are the caller's, since a function over any width doesn't know the size of its elements.
fn show_as<T: Word>(
    out: &impl Print,
    call: Elements,
    line: &Line,
    read: &mut [T],
    write: &mut [T],
) -> io::Result<()> {
    let read = fill(line.read, read);
    let write = fill(line.write, write);
    match call {
        Elements::Pack(order) => return pack(order, write).show(out),
        Elements::PackWords(order, total) => {
            let mut words = [0u32; ELEMENTS];
            let words = fill(line.read, &mut words);
            pack_words(order, write, total, words);
            return print::elements(out, "read", words);
        }
        Elements::Unpack(order, count, word) => {
            unpack(word, order, count, read).show(out)?;
        }
        Elements::UnpackWords(order, total) => {
            unpack_words(order, line.write, total, read);
        }
        Elements::Longer => return print::elements(out, "longer", longer(read, write)),
        Elements::Width(count) => return show_width(out, T::width(), count),
        Elements::New => return Transaction::new_words(write).show(out),
    }
    print::elements(out, "read", read)
}

// Words, buffers and commands of frames.
pub(crate) fn show(out: &impl Print, width: Width, call: Elements, line: &Line) -> io::Result<()> {
    match width {
        Width::U8 => show_as(out, call, line, &mut [0u8; ELEMENTS], &mut [0; ELEMENTS]),
        Width::U16 => show_as(out, call, line, &mut [0u16; ELEMENTS], &mut [0; ELEMENTS]),
        Width::U32 => show_as(out, call, line, &mut [0u32; ELEMENTS], &mut [0; ELEMENTS]),
    }
}

fn transfer_as<T: Word>(
    out: &impl Print,
    call: Transfer,
    line: &Line,
    log: &mut [u32],
    read: &mut [T],
    write: &mut [T],
) -> io::Result<()> {
    let read = fill(line.read, read);
    let write = fill(line.write, write);
    let (driver, budget, script) = (line.driver, line.budget, line.script);
    let r = match call {
        Transfer::ExchangeSeparate => exchange_separate(driver, read, write, budget, script, log),
        Transfer::Exchange => exchange(driver, read, budget, script, log),
        Transfer::WriteNoRead => write_no_read(driver, write, budget, script, log),
        Transfer::ReadNoWrite => read_no_write(driver, read, budget, script, log),
    };
    print::accesses(out, log, r.accesses)?;
    print::elements(out, "read", read)?;
    r.show(out)
}

// A transfer over the script.
pub(crate) fn transfer(
    out: &impl Print,
    width: Width,
    call: Transfer,
    line: &Line,
    log: &mut [u32],
) -> io::Result<()> {
    match width {
        Width::U8 => transfer_as(
            out,
            call,
            line,
            log,
            &mut [0u8; ELEMENTS],
            &mut [0; ELEMENTS],
        ),
        Width::U16 => transfer_as(
            out,
            call,
            line,
            log,
            &mut [0u16; ELEMENTS],
            &mut [0; ELEMENTS],
        ),
        Width::U32 => transfer_as(
            out,
            call,
            line,
            log,
            &mut [0u32; ELEMENTS],
            &mut [0; ELEMENTS],
        ),
    }
}
