// A line: behind the call's name stand its arguments, and then the lists, each behind its name.
use crate::list::List;
use crate::names::Call;
use crate::text::Words;
use sequences::driver::Lpspi;
use words::clock::ClockConfigs;
use words::width::Width;

// The room of a buffer: some more elements than the longest frame has.
pub(crate) const ELEMENTS: usize = 520;

// The room of the script: as many answers as a run can use.
const ANSWERS: usize = 8_000;

// The longest log, in words: one access more than a run can make.
pub(crate) const LOG: usize = 16_002;

#[derive(Clone, Copy)]
pub(crate) struct Line<'a> {
    pub call: Call,
    pub driver: Lpspi,
    pub budget: usize,
    // The log's length.
    pub log: usize,
    // Whether the log is printed as it stands in memory.
    pub raw: bool,
    pub read: &'a [u32],
    pub write: &'a [u32],
    pub script: &'a [u32],
}

// Room for the numbers of a line. It is lent to one line after another: made for each, it would be cleared and moved each time.
#[derive(Drop)]
pub(crate) struct Rooms {
    read: List<ELEMENTS>,
    write: List<ELEMENTS>,
    script: List<ANSWERS>,
}

// The lists that a line names; the numbers of the last three stand in their rooms.
#[derive(Clone, Copy, Default)]
struct Named {
    driver: Option<Lpspi>,
    budget: Option<usize>,
    log: Option<usize>,
    raw: Option<()>,
    read: Option<()>,
    write: Option<()>,
    script: Option<()>,
}

// A list that the line has not named before.
fn put<T: Copy>(list: &mut Option<T>, value: T) -> Option<()> {
    if list.is_some() {
        return None;
    }
    *list = Some(value);
    Some(())
}

fn driver(words: &mut Words) -> Option<Lpspi> {
    let driver = Lpspi::new()
        .with_bit_order(words.order()?)
        .with_mode(words.mode()?)
        .with_pcs(words.pcs()?);
    Some(driver.with_clock(ClockConfigs {
        sckpcs: 0,
        pcssck: 0,
        dbt: words.byte()?,
        sckdiv: words.byte()?,
    }))
}

fn log(words: &mut Words) -> Option<usize> {
    words.size().filter(|n| *n <= LOG)
}

// The hexadecimal numbers that stand next, if there is room for them.
fn numbers<const N: usize>(words: &mut Words, list: &mut List<N>) -> Option<()> {
    list.clear();
    while let Some(number) = words.digits() {
        list.push(number)?;
    }
    Some(())
}

// The numbers of a list; none where the line doesn't name it.
fn list_of<const N: usize>(list: &List<N>, name: Option<()>) -> &[u32] {
    match name {
        Some(()) => list.as_slice(),
        None => &[],
    }
}

// Whether a call takes such a list in a width, or takes none.
fn fits(list: &[u32], name: Option<()>, width: Option<Width>) -> bool {
    match width {
        Some(width) => list.iter().all(|n| *n <= u32::MAX >> (32 - width.bits())),
        None => name.is_none(),
    }
}

impl Named {
    // The rest of a line; nothing where it is bad.
    fn parse(words: &mut Words, rooms: &mut Rooms) -> Option<Named> {
        let mut lists = Named::default();
        // Each of the seven lists stands once at most, and then the line ends.
        for _ in 0..8 {
            let Some(name) = words.next() else {
                return Some(lists);
            };
            lists.take(name, words, rooms)?;
        }
        None
    }

    // The list of a name, of the words that stand next.
    fn take(&mut self, name: &str, words: &mut Words, rooms: &mut Rooms) -> Option<()> {
        match name {
            "driver" => put(&mut self.driver, driver(words)?),
            "budget" => put(&mut self.budget, words.size()?),
            "log" => put(&mut self.log, log(words)?),
            "raw" => put(&mut self.raw, ()),
            "read" => put(&mut self.read, numbers(words, &mut rooms.read)?),
            "write" => put(&mut self.write, numbers(words, &mut rooms.write)?),
            "script" => put(&mut self.script, numbers(words, &mut rooms.script)?),
            _ => None,
        }
    }

    // Whether the line names what only a run has.
    fn has_run(&self) -> bool {
        self.driver.is_some()
            || self.budget.is_some()
            || self.log.is_some()
            || self.raw.is_some()
            || self.script.is_some()
    }
}

impl Rooms {
    pub(crate) fn new() -> Self {
        Rooms {
            read: List::new(),
            write: List::new(),
            script: List::new(),
        }
    }
}

impl<'a> Line<'a> {
    // Nothing where the line is bad.
    pub(crate) fn parse(text: &str, rooms: &'a mut Rooms) -> Option<Self> {
        let (name, rest) = text.split_once(' ').unwrap_or((text, ""));
        let mut words = Words::new(rest);
        let call = Call::parse(name, &mut words)?;
        let lists = Named::parse(&mut words, rooms)?;
        let rooms = &*rooms;
        let takes = call.lists();
        let read = list_of(&rooms.read, lists.read);
        let write = list_of(&rooms.write, lists.write);
        let fit = fits(read, lists.read, takes.read) && fits(write, lists.write, takes.write);
        if !fit || lists.has_run() && !takes.run {
            return None;
        }
        let budget = lists.budget.unwrap_or(8_000);
        Some(Line {
            call,
            driver: lists.driver.unwrap_or(Lpspi::new()),
            budget,
            // What the budget takes, where the line names none.
            log: lists.log.unwrap_or(2 * budget.min(8_001)),
            raw: lists.raw.is_some(),
            read,
            write,
            script: list_of(&rooms.script, lists.script),
        })
    }
}
