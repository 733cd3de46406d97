// A list with room for a fixed number of words: fixed memory.
ghost use Rattle.std.specs.Prelude.{◌≡◌, ◌+◌, ◌≤◌, IfSome};

#[derive(Drop)]
pub(crate) struct List<const N: usize> {
    items: [u32; N],
    len: usize,
    ghost within: { len ≤ N },
}

impl<const N: usize> List<N> {
    pub(crate) fn new() -> Self {
        List {
            items: [0; N],
            len: 0,
        }
    }

    pub(crate) fn clear(&mut self) {
        self.len = 0;
    }

    // One more item, if there is room.
    pub(crate) fn push(&mut self, item: u32) -> Option<()>
        ensures { IfSome result (λ _. self.new.len ≡ self.old.len + 1) }
    {
        *self.items.get_mut(self.len)? = item;
        self.len += 1;
        Some(())
    }

    pub(crate) fn as_slice(&self) -> &[u32] {
        &self.items[..self.len]
    }
}
