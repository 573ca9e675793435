//! What one term has more of than the other, counted in one walk over both.
ghost use Rattle.std.specs.Prelude.{◌≡◌, ◌+◌, ◌<◌, ◌≤◌, fold, length, sum, map, sum_by, nat_lt, if◌then◌else◌};
ghost use Rattle.std.specs.List.{flat_map};
ghost use Rattle.spl_terms.specs.Terms.{term_symbols, term_variables};
ghost use Rattle.kbo.specs.Comparisons.{judged};
ghost use Rattle.kbo.specs.Tallies.{above, below, raised, lowered, rebalanced, met_beyond, on_left, on_right, is_blind, told, contains_variables, order_if, IsEven, TalliesLists};

use crate::order::Order;
use crate::side::Side;
use crate::walking::contains_each;
use spl_terms::Term;

/// The balance of a variable that occurs as often on the left as on the right.
const EVEN: u64 = 4_294_967_296;

/// How many variables a small tally counts. It is made for each comparison.
pub(crate) const FEW: usize = 64;

/// How the variables and symbols of two terms differ. Variables from `N` on are not counted, but noted. A tally for more
/// than `FEW` walks through the terms again where it met one of these; a smaller one is blind from then on, and what it
/// tells is of no use.
#[derive(Debug, Drop)]
pub(crate) struct Tally<const N: usize> {
    // How much more often a variable occurred on the left than on the right, above `EVEN`.
    balances: [u64; N],
    // How many occurrences on the left, and on the right, have no partner on the other side.
    surplus: u64,
    deficit: u64,
    // How many symbols there were on the left, and on the right.
    left: u64,
    right: u64,
    // Whether a variable was met that has no balance.
    beyond: bool,
    ghost size_is: { length balances ≡ N },
    ghost surplus_is: { surplus ≡ sum_by above balances },
    ghost deficit_is: { deficit ≡ sum_by below balances },
    ghost surplus_within: { surplus ≤ left },
    ghost deficit_within: { deficit ≤ right },
}

impl<const N: usize> Tally<N> {
    /// A tally of nothing.
    pub(crate) fn new() -> Tally<N>
        ensures { IsEven N result.balances result.beyond result.left result.right }
    {
        Tally {
            balances: [EVEN; N],
            surplus: 0,
            deficit: 0,
            left: 0,
            right: 0,
            beyond: false,
        }
    }

    // Counts a variable on the left.
    fn raise(&mut self, variable: u32)
        requires { self.old.left < 4294967295 }
        ensures balances { self.new.balances ≡ raised self.old.balances variable }
        ensures beyond { self.new.beyond ≡ met_beyond N self.old.beyond variable }
        ensures left { self.new.left ≡ self.old.left + 1 }
        ensures right { self.new.right ≡ self.old.right }
    {
        self.left += 1;
        let place = variable as usize;
        if place >= N {
            self.beyond = true;
            return;
        }
        let balance = self.balances[place];
        if balance < EVEN {
            self.deficit -= 1;
        } else {
            self.surplus += 1;
        }
        self.balances[place] = balance + 1;
    }

    // Counts a variable on the right.
    fn lower(&mut self, variable: u32)
        requires { self.old.right < 4294967295 }
        ensures balances { self.new.balances ≡ lowered self.old.balances variable }
        ensures beyond { self.new.beyond ≡ met_beyond N self.old.beyond variable }
        ensures left { self.new.left ≡ self.old.left }
        ensures right { self.new.right ≡ self.old.right + 1 }
    {
        self.right += 1;
        let place = variable as usize;
        if place >= N {
            self.beyond = true;
            return;
        }
        let balance = self.balances[place];
        if balance > EVEN {
            self.surplus -= 1;
        } else {
            self.deficit += 1;
        }
        self.balances[place] = balance - 1;
    }

    fn count_variable(&mut self, side: Side, variable: u32)
        requires left_room { self.old.left + on_left side 1 ≤ 4294967295 }
        requires right_room { self.old.right + on_right side 1 ≤ 4294967295 }
        ensures balances { self.new.balances ≡ rebalanced side self.old.balances variable }
        ensures beyond { self.new.beyond ≡ met_beyond N self.old.beyond variable }
        ensures left { self.new.left ≡ self.old.left + on_left side 1 }
        ensures right { self.new.right ≡ self.old.right + on_right side 1 }
    {
        match side {
            Side::Left => self.raise(variable),
            Side::Right => self.lower(variable),
        }
    }

    // Counts a symbol that is no variable.
    fn count_symbol(&mut self, side: Side)
        requires left_room { self.old.left + on_left side 1 ≤ 4294967295 }
        requires right_room { self.old.right + on_right side 1 ≤ 4294967295 }
        ensures balances { self.new.balances ≡ self.old.balances }
        ensures beyond { self.new.beyond ≡ self.old.beyond }
        ensures left { self.new.left ≡ self.old.left + on_left side 1 }
        ensures right { self.new.right ≡ self.old.right + on_right side 1 }
    {
        match side {
            Side::Left => self.left += 1,
            Side::Right => self.right += 1,
        }
    }

    /// Counts a term on a side.
    #[cycle(counting)]
    #[tactic(auto, using(crate::proofs::TallyLemmas::counting_laws))]
    pub(crate) fn count(&mut self, side: Side, term: &Term)
        requires left_room { self.old.left + on_left side (term_symbols term.now) ≤ 4294967295 }
        requires right_room { self.old.right + on_right side (term_symbols term.now) ≤ 4294967295 }
        ensures balances { self.new.balances ≡ fold (rebalanced side) self.old.balances (term_variables term.now) }
        ensures beyond { self.new.beyond ≡ fold (met_beyond N) self.old.beyond (term_variables term.now) }
        ensures left { self.new.left ≡ self.old.left + on_left side (term_symbols term.now) }
        ensures right { self.new.right ≡ self.old.right + on_right side (term_symbols term.now) }
    {
        match term {
            Term::Var(variable) => self.count_variable(side, *variable),
            Term::App(_, args) => {
                self.count_symbol(side);
                self.count_all(side, args.as_slice());
            }
        }
    }

    /// Counts each of the terms on a side.
    #[cycle(counting)]
    #[tactic(auto, using(crate::proofs::TallyLemmas::counting_laws))]
    pub(crate) fn count_all(&mut self, side: Side, terms: &[Term])
        requires left_room { self.old.left + on_left side (sum (map term_symbols terms.now)) ≤ 4294967295 }
        requires right_room { self.old.right + on_right side (sum (map term_symbols terms.now)) ≤ 4294967295 }
        ensures balances { self.new.balances ≡ fold (rebalanced side) self.old.balances (flat_map term_variables terms.now) }
        ensures beyond { self.new.beyond ≡ fold (met_beyond N) self.old.beyond (flat_map term_variables terms.now) }
        ensures left { self.new.left ≡ self.old.left + on_left side (sum (map term_symbols terms.now)) }
        ensures right { self.new.right ≡ self.old.right + on_right side (sum (map term_symbols terms.now)) }
    {
        for term in terms {
            self.count(side, term);
        }
    }

    /// Whether a variable was met that the tally neither counts nor looks for.
    pub(crate) fn is_blind(&self) -> bool
        ensures { result ≡ is_blind self.now.beyond (nat_lt 64 N) }
    {
        self.beyond && N <= FEW
    }

    // Whether no variable occurs more often in the others than in the terms, as far as the tally knows.
    fn left_contains(&self, terms: &[Term], others: &[Term]) -> bool
        requires terms_size { sum (map term_symbols terms.now) ≤ 4294967295 }
        requires others_size { sum (map term_symbols others.now) ≤ 4294967295 }
        ensures { result ≡ told self.now.beyond (nat_lt 64 N) self.now.deficit (contains_variables terms.now others.now) }
    {
        if self.beyond && N > FEW {
            contains_each(terms, others)
        } else {
            self.deficit == 0
        }
    }

    // Whether no variable occurs more often in the terms than in the others, as far as the tally knows.
    fn right_contains(&self, terms: &[Term], others: &[Term]) -> bool
        requires terms_size { sum (map term_symbols terms.now) ≤ 4294967295 }
        requires others_size { sum (map term_symbols others.now) ≤ 4294967295 }
        ensures { result ≡ told self.now.beyond (nat_lt 64 N) self.now.surplus (contains_variables others.now terms.now) }
    {
        if self.beyond && N > FEW {
            contains_each(others, terms)
        } else {
            self.surplus == 0
        }
    }

    fn if_left_contains(&self, terms: &[Term], others: &[Term]) -> Order
        requires terms_size { sum (map term_symbols terms.now) ≤ 4294967295 }
        requires others_size { sum (map term_symbols others.now) ≤ 4294967295 }
        ensures { result ≡ order_if
            (told self.now.beyond (nat_lt 64 N) self.now.deficit (contains_variables terms.now others.now)) Order.Greater }
    {
        if self.left_contains(terms, others) {
            Order::Greater
        } else {
            Order::Incomparable
        }
    }

    fn if_right_contains(&self, terms: &[Term], others: &[Term]) -> Order
        requires terms_size { sum (map term_symbols terms.now) ≤ 4294967295 }
        requires others_size { sum (map term_symbols others.now) ≤ 4294967295 }
        ensures { result ≡ order_if
            (told self.now.beyond (nat_lt 64 N) self.now.surplus (contains_variables others.now terms.now)) Order.Less }
    {
        if self.right_contains(terms, others) {
            Order::Less
        } else {
            Order::Incomparable
        }
    }

    /// How two applications stand by their weights and variables, and where the weights are the same by what is left to
    /// decide. The tally is that of their arguments.
    #[tactic(auto, using(crate::proofs::TallyLemmas::judging_laws))]
    pub(crate) fn judge(&self, terms: &[Term], others: &[Term], lower: Order) -> Order
        requires tally { TalliesLists N self.now.balances self.now.beyond self.now.left self.now.right terms.now others.now }
        requires terms_size { sum (map term_symbols terms.now) ≤ 4294967295 }
        requires others_size { sum (map term_symbols others.now) ≤ 4294967295 }
        ensures { result ≡ judged
            (told self.now.beyond (nat_lt 64 N) self.now.deficit (contains_variables terms.now others.now))
            (told self.now.beyond (nat_lt 64 N) self.now.surplus (contains_variables others.now terms.now))
            (sum (map term_symbols terms.now)) (sum (map term_symbols others.now)) lower }
    {
        if self.left > self.right {
            return self.if_left_contains(terms, others);
        }
        if self.left < self.right {
            return self.if_right_contains(terms, others);
        }
        match lower {
            Order::Greater => self.if_left_contains(terms, others),
            Order::Less => self.if_right_contains(terms, others),
            _ => lower,
        }
    }
}
