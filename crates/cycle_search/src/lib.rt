// The search for a shortest accepting cycle. Profiles are found layer by layer, those of runs of one length at a time, and the search stops
// behind the first layer that has an accepting one.
#![tactic(auto)]

ghost use Rattle.std.specs.Prelude.{◌≡◌, ◌≤◌, ◌<◌, length};
ghost use Rattle.base.specs.Bits.{bit};
ghost use Rattle.tableau.specs.Operators.{operators};
ghost use Rattle.profile_tables.specs.Runs.{singles, accepting};
ghost use Rattle.profile_search.specs.Stored.{record_start, record_of, stored, Rising, StoreFits, StoreChained, BytesBetween};
ghost use Rattle.profile_search.specs.Singles.{SearchInput, nodes_in};
ghost use Rattle.cycle_search.specs.Layers.{accepts, FirstOf, ComesTo};

use profile_search::Store;
use traces::RankedTableau;

// The first accepting profile, and how many there are of runs that are no longer; or that none is accepting, and how many there are of all
// runs.
#[derive(Clone, Copy)]
pub enum Sought {
    Accepting { profile: usize, count: usize },
    Nowhere(usize),
}

// Whether profile p is that of an accepting cycle, where the mask has the least fixpoints.
fn is_accepting(area: &[u8], store: Store, p: usize, mask: u8) -> bool
    requires store_fits { StoreFits store (length area.now) }
    requires p_lt_capacity { p < store.capacity }
    ensures { result ≡ accepts (bit mask) store.n (record_of store area.now p) }
{
    let e = profile_search::header_of(area, store, p);
    e.first.0 == e.last.0
        && !triples::is_rejecting(area, profile_search::record_start(store, p), mask, store.n)
}

// The first such profile from number `from` up to number `to`.
fn accepting(area: &[u8], store: Store, from: usize, to: usize, mask: u8) -> Option<usize>
    requires store_fits { StoreFits store (length area.now) }
    requires from_le_to { (from ≤ to) × (to ≤ store.capacity) }
    ensures { FirstOf (λ p. accepts (bit mask) store.n (record_of store area.now p)) from to result }
{
    (from..to).find(|&p| is_accepting(area, store, p, mask))
}

// The search on from the profiles of one transition, or `None` where there is no room for a layer before its end is known.
fn by_layers(area: &mut [u8], store: Store, singles: usize, mask: u8) -> Option<Sought>
    requires store_chained { StoreChained store area.old singles }
    requires rising { Rising store area.old singles }
    ensures comes_to { ComesTo (accepts (bit mask) store.n) store (stored store area.old singles) area.new result }
    ensures bytes_between { BytesBetween store.base (record_start store store.capacity) area.old area.new }
{
    // Each turn makes the layer that the next one goes over, so there is no range to go through.
    let mut from = 0;
    let mut all = singles;
    while from < all {
        if let Some(profile) = accepting(area, store, from, all, mask) {
            return Some(Sought::Accepting {
                profile,
                count: all,
            });
        }
        let more = profile_search::layer(area, store, from, all, singles)?;
        from = all;
        all = more;
    }
    Some(Sought::Nowhere(all))
}

// The search over the nodes in the area, or `None` where there is no room for the profiles.
pub fn search(ranked: &RankedTableau, store: Store, area: &mut [u8], nodes: usize) -> Option<Sought>
    requires { SearchInput ranked.now.tableau.now.table.rows ranked.now.tableau.now.table.count store nodes area.old }
    ensures comes_to { ComesTo (accepting (operators ranked.now.tableau.now)) store
        (singles (operators ranked.now.tableau.now) (nodes_in ranked.now.tableau.now.table.count area.old nodes)) area.new result }
    ensures bytes_between { BytesBetween store.base (record_start store store.capacity) area.old area.new }
{
    let singles = profile_search::singles(ranked, store, area, nodes)?;
    let mask = ranked.least_mask();
    by_layers(area, store, singles, mask)
}
