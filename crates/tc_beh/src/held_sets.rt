// The sets of pairs that stand in rows, each held once, with some of their products.
ghost use Rattle.std.specs.Prelude.{◌≡◌, ◌<◌, ◌≤◌, ◌++◌, ◌∷◌, [], Some, slice_get, length, IfOk, IfSome, OnErr, MatchOption, true};
ghost use Rattle.tc_base.specs.declared.limits.TheConstants.{MOST_OUTPUTS};
ghost use Rattle.tc_mat.specs.Matrix.{IsIdentity};
ghost use Rattle.std.specs.Result.{IsErrOf};
ghost use Rattle.tc_mat.specs.Held.{Held, AreDifferent, AreMatrices, IsHeld};
ghost use Rattle.tc_beh.specs.Remembered.{IsNothing, IsProduct};

use crate::guesses::Guesses;
use crate::products::Products;
use std::alloc::Global;
use std::marker::Model;
use tc_base::NoMemory;
use tc_mat::{Mat, MatId, Pool, PoolFault};

/// The sets of pairs that stand in rows, each held once and known by its number, with some of their products.
#[derive(Drop)]
pub(crate) struct HeldSets {
    pool: Pool,
    products: Products,
    guesses: Guesses,
    /// The set of each state with itself, and its number, if it is held.
    identity: Mat,
    nothing: Option<u32>,
}

impl Model for HeldSets {
    ghost use Rattle.std.specs.Prelude.{◌≡◌, IfSome};
    ghost use Rattle.tc_mat.specs.Held.{Held};
    ghost use Rattle.tc_mat.specs.Matrix.{IsIdentity};
    ghost use Rattle.tc_beh.specs.Remembered.{IsNothing, AreRemembered};

    ghost Value = { Held };

    ghost view = { λ s. s.pool };

    ghost invariant = { λ s. AreRemembered s.pool s.products × IsIdentity s.identity
        × (s.identity.size ≡ s.pool.size) × IfSome s.nothing (IsNothing s.pool) };
}

/// The number of the set of each state with itself in a pool, if it is held.
fn nothing_in(pool: &Pool, identity: &Mat) -> Option<u32>
    requires is { IsIdentity identity.now }
    requires size { identity.now.size ≡ pool.now.size }
    ensures { IfSome result (IsNothing pool.now) }
{
    match pool.find(identity) {
        Some(id) => Some(id.0),
        None => None,
    }
}

/// The same after one more set was held, which may be that.
fn nothing_after(
    nothing: Option<u32>,
    is_nothing: bool,
    held: &Result<MatId, PoolFault>,
) -> Option<u32>
    ensures { (h : Held) → IfSome nothing (IsNothing h)
        → (is_nothing ≡ true → IfOk held.now (λ id. IsNothing h id.0))
        → IfSome result (IsNothing h) }
{
    match held {
        Ok(id) => { if is_nothing { Some(id.0) } else { nothing } }
        Err(_) => nothing,
    }
}

/// True only of the same set.
fn is_same(one: &Mat, other: &Mat) -> bool
    ensures { result ≡ true → one.now ≡ other.now }
{
    one == other
}

impl HeldSets {
    /// The sets of a pool, of which no products are known.
    ///
    /// # Errors
    ///
    /// There is no memory for the products.
    pub(crate) fn of(alloc: Global, pool: Pool) -> Result<HeldSets, NoMemory>
        ensures { IfOk result (λ s. s ≡ pool) }
    {
        let products = Products::none(alloc)?;
        let guesses = Guesses::of(alloc, &pool)?;
        let identity = Mat::identity(alloc, pool.size())?;
        let nothing = nothing_in(&pool, &identity);
        Ok(HeldSets {
            pool,
            products,
            guesses,
            identity,
            nothing,
        })
    }

    /// How many sets are held.
    pub(crate) fn len(&self) -> u32
        ensures count { result ≡ length self.now.matrices }
        ensures bound { length self.now.matrices ≤ MOST_OUTPUTS }
        ensures different { AreDifferent self.now }
        ensures matrices { AreMatrices self.now }
    {
        self.pool.len()
    }

    /// True only where a set is held under a number.
    pub(crate) fn is_at(&self, number: u32, set: &Mat) -> bool
        ensures { result ≡ true → slice_get self.now.matrices number ≡ Some set.now }
    {
        number < self.pool.len() && self.pool.get(MatId(number)) == set
    }

    /// The number of a set, if it is held.
    pub(crate) fn find(&self, set: &Mat) -> Option<MatId>
        ensures { MatchOption result (¬ IsHeld self.now set.now)
            (λ id. slice_get self.now.matrices id.0 ≡ Some set.now) }
    {
        let guess = self.guesses.number_of(set);
        if self.is_at(guess, set) {
            return Some(MatId(guess));
        }
        self.pool.find(set)
    }

    /// The set of a number.
    pub(crate) fn get(&self, id: MatId) -> &Mat
        requires { id.0 < length self.now.matrices }
        ensures matrix { slice_get self.now.matrices id.0 ≡ Some result.now }
        ensures size { result.now.size ≡ self.now.size }
    {
        self.pool.get(id)
    }

    /// Holds a set that isn't held, under the next number.
    ///
    /// # Errors
    ///
    /// `PoolFull` where 65,536 others are held, and `NoMemory` where memory for a copy is refused. What is held then stays as it
    /// was.
    pub(crate) fn hold(&mut self, set: &Mat) -> Result<MatId, PoolFault>
        requires size { set.now.size ≡ self.old.size }
        requires absent { ¬ IsHeld self.old set.now }
        ensures id { IfOk result (λ id. slice_get self.new.matrices id.0 ≡ Some set.now) }
        ensures grows { IfOk result (λ id. (id.0 ≡ length self.old.matrices)
            × (self.new ≡ record self.old { matrices = self.old.matrices ++ set.now ∷ [] })) }
        ensures err { OnErr result (self.new ≡ self.old) }
        ensures full { IsErrOf result PoolFault.PoolFull → length self.old.matrices ≡ MOST_OUTPUTS }
    {
        self.guesses.keep(set, self.pool.len());
        let is_nothing = is_same(set, &self.identity);
        let held = self.pool.intern(set);
        self.nothing = nothing_after(self.nothing, is_nothing, &held);
        held
    }

    /// The number of the set of each state with itself, if it is known.
    pub(crate) fn nothing(&self) -> Option<u32>
        ensures { IfSome result (IsNothing self.now) }
    {
        self.nothing
    }

    /// The number of the product of two sets, if it is remembered.
    pub(crate) fn product(&self, first: u32, second: u32) -> Option<u32>
        ensures { IfSome result (λ k. IsProduct self.now first second k) }
    {
        self.products.get(first, second)
    }

    /// Remembers the product of two sets.
    pub(crate) fn remember(&mut self, first: u32, second: u32, product: u32)
        requires { IsProduct self.old first second product }
        ensures { self.new ≡ self.old }
    {
        self.products.keep(first, second, product);
    }
}
