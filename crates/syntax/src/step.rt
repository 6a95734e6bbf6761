ghost use Rattle.std.specs.Prelude.{◌≡◌, slice_index};
ghost use Rattle.syntax.specs.declared.step.Stop.TheVariants.{Impossible};
ghost use Rattle.grammar.specs.Codes.{code};
ghost use Rattle.syntax.specs.Symbols.{tag_codes, tag_at, word_length, number_at};
ghost use Rattle.syntax.specs.Steps.{NextIs, Advances, AdvancesOrStops, Accepts, Expects, Opens, Finishes, Pushed};

use crate::tree::TreeRecord;
use crate::words;
use lexer::SymbolRecord;
use vocabulary::Tag;

/// How far a descent has come: the next symbol, and how many tree records are in use.
#[derive(Clone, Copy)]
pub struct Cursor {
    pub at: usize,
    pub used: usize,
}

/// Where a descent stops: a symbol that is impossible there, or one that encloses one too many.
#[derive(Clone, Copy)]
pub enum Stop {
    Impossible(usize),
    TooDeep(usize),
}

// Lent lists with how far they are read and filled: a compiler without a heap has no Vec to push to.
/// A descent over the symbols of a source, and the tree that it writes.
#[derive(Drop)]
pub struct Descent<'a> {
    source: &'a [u8],
    symbols: &'a [SymbolRecord],
    tree: &'a mut [TreeRecord],
    here: Cursor,
}

impl<'a> Descent<'a> {
    /// A descent from the first symbol on, with no record in use.
    pub fn new(
        source: &'a [u8],
        symbols: &'a [SymbolRecord],
        tree: &'a mut [TreeRecord],
    ) -> Descent<'a>
        ensures read { (result.source.now ≡ source.now) × (result.symbols.now ≡ symbols.now) }
        ensures lent { (result.tree.now ≡ tree.old) × (result.tree.ghost_name ≡ tree.entry.ghost_name) }
        ensures here { (result.here.at ≡ 0) × (result.here.used ≡ 0) }
    {
        Descent::at(source, symbols, tree, Cursor { at: 0, used: 0 })
    }

    /// A descent from a symbol on, with so many records in use.
    pub fn at(
        source: &'a [u8],
        symbols: &'a [SymbolRecord],
        tree: &'a mut [TreeRecord],
        from: Cursor,
    ) -> Descent<'a>
        ensures read { (result.source.now ≡ source.now) × (result.symbols.now ≡ symbols.now) }
        ensures lent { (result.tree.now ≡ tree.old) × (result.tree.ghost_name ≡ tree.entry.ghost_name) }
        ensures here { result.here ≡ from }
    {
        Descent {
            source,
            symbols,
            tree,
            here: from,
        }
    }
}

impl Descent<'_> {
    /// How far it has come.
    pub fn here(&self) -> Cursor
        ensures { result ≡ self.now.here }
    {
        let Descent { here, .. } = self;
        *here
    }

    /// The tag of the next symbol, that of the end behind the last.
    pub fn next(&self) -> Tag
        ensures is { result ≡ tag_at self.now.symbols.now self.now.here.at }
        ensures coded { code result ≡ slice_index (tag_codes self.now.symbols.now) self.now.here.at }
    {
        match self.symbols.get(self.here.at) {
            Some(symbol) => symbol.tag,
            None => Tag::EndOfSource,
        }
    }

    /// Whether the next symbol has the tag.
    pub fn is_next(&self, tag: Tag) -> bool
        ensures { NextIs (code tag) self.now result }
    {
        match self.symbols.get(self.here.at) {
            Some(symbol) => symbol.tag == tag,
            None => false,
        }
    }

    /// Passes over the next symbol and answers it, or refuses where none is left.
    pub fn advance(&mut self) -> Result<SymbolRecord, Stop>
        ensures { AdvancesOrStops self.old result self.new }
    {
        let symbol = self.symbols.get(self.here.at).ok_or(self.impossible())?;
        self.here.at += 1;
        Ok(*symbol)
    }

    /// Passes over the next symbol, if there is one, and answers it.
    pub fn pass(&mut self) -> SymbolRecord
        ensures { Advances result self.old self.new }
    {
        self.advance().unwrap_or(SymbolRecord::ZERO)
    }

    /// Passes over the next symbol if it has the tag.
    pub fn accept(&mut self, tag: Tag) -> bool
        ensures { Accepts (code tag) self.old result self.new }
    {
        let found = self.is_next(tag);
        if found {
            self.pass();
        }
        found
    }

    /// Passes over the next symbol, which has to have the tag, and answers it.
    pub fn expect(&mut self, tag: Tag) -> Result<SymbolRecord, Stop>
        ensures { Expects (code tag) self.old result self.new }
    {
        if self.is_next(tag) {
            Ok(self.pass())
        } else {
            Err(self.impossible())
        }
    }

    /// The stop at the next symbol, which is impossible.
    fn impossible(&self) -> Stop
        ensures { result ≡ Impossible self.now.here.at }
    {
        Stop::Impossible(self.here.at)
    }

    /// Passes over the next symbol, which has to have the tag and encloses what follows, and answers it and the room left inside.
    pub fn open(&mut self, tag: Tag, room: u8) -> Result<(SymbolRecord, u8), Stop>
        ensures { Opens (code tag) room self.old result self.new }
    {
        if !self.is_next(tag) {
            return Err(self.impossible());
        }
        let inside = room.checked_sub(1).ok_or(Stop::TooDeep(self.here.at))?;
        Ok((self.pass(), inside))
    }

    /// How far it has come, if no symbol is left.
    pub fn finish(&self) -> Result<Cursor, Stop>
        ensures { Finishes self.now result }
    {
        if self.here.at < self.symbols.len() {
            Err(self.impossible())
        } else {
            Ok(self.here)
        }
    }

    /// How long the word is that the symbol stands for.
    // By the function of a source and a place: who holds a descent has no source to give it.
    pub fn word_length(&self, symbol: SymbolRecord) -> usize
        ensures { result ≡ word_length self.now.source.now symbol.place }
    {
        words::word_length(self.source, symbol.place as usize)
    }

    /// The value of the number that the symbol stands for.
    pub(crate) fn number_at(&self, symbol: SymbolRecord) -> usize
        ensures { result ≡ number_at self.now.source.now symbol.place }
    {
        words::number_at(self.source, symbol.place as usize)
    }

    /// Writes the next record, if there is room, and answers its index.
    pub fn push(&mut self, node: TreeRecord) -> usize
        ensures { Pushed node result self.old self.new }
    {
        if self.here.used < self.tree.len() {
            self.tree[self.here.used] = node;
        }
        self.here.used = self.here.used.saturating_add(1);
        self.here.used - 1
    }
}
