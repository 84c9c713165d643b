//! Matrices, each held once and known by a number.

ghost use Rattle.std.specs.Prelude.{◌≡◌, ◌<◌, ◌≤◌, ◌++◌, ◌∷◌, ◌⊎◌, ◌↔◌, [], Some, None, slice_get, length, IfOk, OnOk, OnErr, IsOk, MatchOption, IfSome, List};
ghost use Rattle.std.specs.Result.{IsErrOf};
ghost use Rattle.tc_mat.specs.Held.{AreDifferent, AreMatrices, IsHeld};

use crate::Mat;
use indexmap::IndexSet;
use std::alloc::{AllocError, AllocFailed, Global};
use std::marker::Model;
use tc_base::limits::MOST_OUTPUTS;

/// The most matrices that a pool holds.
const MOST: usize = MOST_OUTPUTS as usize;

/// The number of a matrix in its pool, counted from 0 in the order in which they were first held.
#[derive(Clone, Copy, Debug, PartialEq, Eq)]
pub struct MatId(pub u32);

/// Why a pool doesn't take a matrix.
#[derive(Clone, Copy, Debug, PartialEq, Eq)]
pub enum PoolFault {
    /// It holds 65,536 others.
    PoolFull,
    /// Memory was refused.
    NoMemory,
}

impl From<AllocError> for PoolFault {
    ghost use Rattle.tc_mat.specs.declared.pools.PoolFault.TheVariants.{NoMemory};

    ghost from_gives = { λ _ e. e ≡ NoMemory };

    fn from(_error: AllocError) -> PoolFault {
        PoolFault::NoMemory
    }
}

impl<T: Drop> From<AllocFailed<T>> for PoolFault {
    ghost use Rattle.tc_mat.specs.declared.pools.PoolFault.TheVariants.{NoMemory};

    ghost from_gives = { λ _ e. e ≡ NoMemory };

    fn from(_error: AllocFailed<T>) -> PoolFault {
        PoolFault::NoMemory
    }
}

/// Matrices of one size, each held once, at most 65,536.
#[derive(Drop)]
pub struct Pool {
    alloc: Global,
    n: u32,
    keys: IndexSet<Mat>,
}

impl Model for Pool {
    ghost use Rattle.std.specs.Prelude.{◌≡◌, ◌≤◌, length, All};
    ghost use Rattle.tc_base.specs.declared.limits.TheConstants.{MOST_OUTPUTS};
    ghost use Rattle.tc_mat.specs.Matrix.{IsMatrix};
    ghost use Rattle.tc_mat.specs.Held.{Held};

    ghost Value = { Held };

    ghost view = { λ p. record { size = p.n; matrices = p.keys.keys } };

    ghost invariant = { λ p. (length p.keys.keys ≤ MOST_OUTPUTS) × All (λ m. (m.size ≡ p.n) × IsMatrix m) p.keys.keys };
}

impl Pool {
    /// A pool of no matrices, for matrices of one size.
    pub fn new(alloc: Global, n: u32) -> Pool
        ensures { result ≡ record { size = n; matrices = [] } }
    {
        Pool {
            alloc,
            n,
            keys: IndexSet::new(alloc),
        }
    }

    /// The size of its matrices.
    pub fn size(&self) -> u32
        ensures { result ≡ self.now.size }
    {
        self.n
    }

    /// How many matrices it holds.
    pub fn len(&self) -> u32
        ensures count { result ≡ length self.now.matrices }
        ensures bound { length self.now.matrices ≤ MOST_OUTPUTS }
        ensures different { AreDifferent self.now }
        ensures matrices { AreMatrices self.now }
    {
        self.keys.len() as u32
    }

    /// The number of a matrix, if it is held.
    pub fn find(&self, mat: &Mat) -> Option<MatId>
        ensures { MatchOption result (¬ IsHeld self.now mat.now)
            (λ id. slice_get self.now.matrices id.0 ≡ Some mat.now) }
    {
        match self.keys.get_index_of(mat) {
            Some(i) => Some(MatId(i as u32)),
            None => None,
        }
    }

    /// The matrix of a number of this pool.
    pub fn get(&self, id: MatId) -> &Mat
        requires { id.0 < length self.now.matrices }
        ensures matrix { slice_get self.now.matrices id.0 ≡ Some result.now }
        ensures size { result.now.size ≡ self.now.size }
    {
        &self.keys.as_slice()[id.0 as usize]
    }

    /// The number of a matrix. One that isn't held comes last.
    ///
    /// # Errors
    ///
    /// `PoolFull` exactly where 65,536 others are held, and `NoMemory` where memory for a copy is refused.
    /// The pool then stays as it was.
    pub fn intern(&mut self, mat: &Mat) -> Result<MatId, PoolFault>
        requires { mat.now.size ≡ self.old.size }
        ensures id { IfOk result (λ id. slice_get self.new.matrices id.0 ≡ Some mat.now) }
        ensures held { IsHeld self.old mat.now → IsOk result × (self.new ≡ self.old) }
        ensures absent { ¬ IsHeld self.old mat.now → IfOk result
            (λ id. (id.0 ≡ length self.old.matrices)
            × (self.new ≡ record self.old { matrices = self.old.matrices ++ mat.now ∷ [] })) }
        ensures bound { length self.new.matrices ≤ MOST_OUTPUTS }
        ensures err { OnErr result (self.new ≡ self.old) }
        ensures full { IsErrOf result PoolFault.PoolFull
            → (length self.old.matrices ≡ MOST_OUTPUTS) × ¬ IsHeld self.old mat.now }
        ensures refused { length self.old.matrices ≡ MOST_OUTPUTS → ¬ IsHeld self.old mat.now
            → IsErrOf result PoolFault.PoolFull }
    {
        if let Some(id) = self.find(mat) {
            return Ok(id);
        }
        let id = self.keys.len();
        if id >= MOST {
            return Err(PoolFault::PoolFull);
        }
        let Ok(owned) = mat.copied(self.alloc) else {
            return Err(PoolFault::NoMemory);
        };
        self.keys.insert(owned)?;
        Ok(MatId(id as u32))
    }
}
