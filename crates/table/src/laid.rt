// A table that is laid, and a row of it: what is known of their words goes with them. The free functions of this crate stay beside the methods
// for repeats and decode, whose tables are not laid yet; definitions speak of words, atoms and place, since they hold of such tables too.
ghost use Rattle.std.specs.Prelude.{◌≤◌, ◌≡◌};
ghost use Rattle.rules.specs.Rule.{chooses};
ghost use Rattle.table.specs.Inner.Words.{pair_atom, pair_weight};
ghost use Rattle.table.specs.Inner.Rows.{kind_at, need_at, heads_at, positives_at, negatives_at, end_at, Laid, Row};

// The table of a sheet of so many atoms and rules.
#[derive(Clone, Copy, Debug)]
pub struct Table<'a> {
    pub code: &'a [u32],
    pub atoms: u32,
    pub rules: u32,
    pub ghost laid: { Laid code.now atoms rules },
}

impl<'a> Table<'a> {
    pub fn new(code: &'a [u32], atoms: u32, rules: u32) -> Table<'a>
        requires { Laid code.now atoms rules }
        ensures lent { result.code ≡ code.entry }
        ensures atoms { result.atoms ≡ atoms }
        ensures rules { result.rules ≡ rules }
    {
        Table { code, atoms, rules }
    }

    // The row of rule i + 1; after the rules stands the row of the compute lists.
    pub fn row(&self, i: u32) -> TableRow<'a>
        requires { i ≤ self.now.rules }
        ensures lent { result.code ≡ self.now.code }
        ensures atoms { result.atoms ≡ self.now.atoms }
        ensures at { result.at ≡ i }
    {
        TableRow {
            code: self.code,
            atoms: self.atoms,
            at: i,
        }
    }
}

// A row of a table.
#[derive(Clone, Copy, Debug)]
pub struct TableRow<'a> {
    pub code: &'a [u32],
    pub atoms: u32,
    pub at: u32,
    pub ghost stands: { Row code.now atoms at },
}

impl<'a> TableRow<'a> {
    pub fn is_choice(&self) -> bool
        ensures { result ≡ chooses (kind_at self.now.code.now self.now.at) }
    {
        super::is_choice(self.code, self.at)
    }

    // The atom of pair j, and the weight of its literal.
    pub fn atom(&self, j: u32) -> u32
        ensures { result ≡ pair_atom self.now.code.now j }
    {
        super::atom_at(self.code, j)
    }

    pub fn weight(&self, j: u32) -> u32
        ensures { result ≡ pair_weight self.now.code.now j }
    {
        super::weight_at(self.code, j)
    }

    pub fn need(&self) -> u32
        ensures { result ≡ need_at self.now.code.now self.now.at }
    {
        super::need_at(self.code, self.at)
    }

    // Where its heads begin; its positive literals, which end them; its negated literals; and where those end.
    pub fn heads(&self) -> u32
        ensures { result ≡ heads_at self.now.code.now self.now.at }
    {
        super::heads_at(self.code, self.at)
    }

    pub fn positives(&self) -> u32
        ensures { result ≡ positives_at self.now.code.now self.now.at }
    {
        super::positives_at(self.code, self.at)
    }

    pub fn negatives(&self) -> u32
        ensures { result ≡ negatives_at self.now.code.now self.now.at }
    {
        super::negatives_at(self.code, self.at)
    }

    pub fn end(&self) -> u32
        ensures { result ≡ end_at self.now.code.now self.now.at }
    {
        super::end_at(self.code, self.at)
    }
}
