// The table of a formula, with the fact that all functions of the tableau ask of it.

ghost use Rattle.std.specs.Prelude.{◌≡◌};
ghost use Rattle.tableau.specs.Inner.{Formed};
ghost use Rattle.tableau.specs.FormedFact.{Formed-prop};

use formula::Table;

// The tableau of a formula whose subformulas are in the table: what is asked of the rows of an accepted formula goes with it.
#[derive(Clone, Copy)]
pub struct Tableau {
    pub table: Table,
    ghost formed: { Formed table.rows table.count } by { Formed-prop table.rows table.count },
}

impl Tableau {
    // The tableau of a table whose rows are as asked.
    pub fn new(table: Table) -> Tableau
        requires { Formed table.rows table.count }
        ensures { result.table ≡ table }
    {
        Tableau { table }
    }
}
