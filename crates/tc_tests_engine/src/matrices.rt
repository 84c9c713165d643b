//! The product beside a plain one over truth values, the places of bits, and the numbers of a pool.

use std::alloc::Global;
use tc_base::NoMemory;
use tc_mat::{Mat, MatId, Pool};

/// Whether a rule has a pair. An odd seed has none whose numbers are of one block of 64.
fn is_pair(seed: u32, i: u32, j: u32) -> bool {
    (31 * u64::from(i) + 17 * u64::from(j) + u64::from(seed)) % 11 == 0
        && (seed % 2 == 0 || i / 64 != j / 64)
}

/// The pairs of a rule, as a matrix.
fn matrix_of(alloc: Global, seed: u32, n: u32) -> Result<Mat, NoMemory> {
    let mut mat = Mat::zero(alloc, n)?;
    for i in 0..n {
        for j in 0..n {
            if is_pair(seed, i, j) && i < mat.size() && j < mat.size() {
                mat.set(i, j);
            }
        }
    }
    Ok(mat)
}

/// Whether the pairs of two rules lead from i to j, by trying each number between.
fn leads(left: u32, right: u32, n: u32, i: u32, j: u32) -> bool {
    for k in 0..n {
        if is_pair(left, i, k) && is_pair(right, k, j) {
            return true;
        }
    }
    false
}

/// Whether a matrix has the pairs of the product of two rules' pairs, and no others.
fn is_product(mat: &Mat, left: u32, right: u32, n: u32) -> bool {
    if mat.size() != n {
        return false;
    }
    for i in 0..n {
        for j in 0..n {
            if mat.has(i, j) != leads(left, right, n, i, j) {
                return false;
            }
        }
    }
    true
}

/// Multiplies matrices of one size into another.
fn multiply(a: &Mat, b: &Mat, out: &mut Mat) {
    if a.size() == out.size() && b.size() == out.size() {
        Mat::mul_into(a, b, out);
    }
}

/// Whether the matrices of two rules are multiplied as their pairs are, over what a matrix held.
fn are_multiplied(alloc: Global, left: u32, right: u32, n: u32) -> bool {
    let Ok(a) = matrix_of(alloc, left, n) else {
        return false;
    };
    let Ok(b) = matrix_of(alloc, right, n) else {
        return false;
    };
    let Ok(mut out) = matrix_of(alloc, 6, n) else {
        return false;
    };
    multiply(&a, &b, &mut out);
    is_product(&out, left, right, n)
}

/// Sizes beside a word's border.
static SIZES: [u32; 5] = [1, 63, 64, 65, 130];

/// Rules of a full left matrix, and of one whose blocks on the diagonal are zero.
static FACTORS: [(u32, u32); 2] = [(0, 2), (1, 4)];

#[test]
fn product_is_the_plain_one(rt: HostRuntime) {
    for n in &SIZES {
        for (left, right) in &FACTORS {
            assert!(rt;
                are_multiplied(rt.alloc(), *left, *right, *n),
                "size {n}, {left} by {right}"
            );
        }
    }
}

/// The identity with two pairs more.
fn identity_with_two(alloc: Global) -> Result<Mat, NoMemory> {
    let mut mat = Mat::identity(alloc, 65)?;
    for (i, j) in [(0, 64), (1, 63)] {
        if i < mat.size() && j < mat.size() {
            mat.set(i, j);
        }
    }
    Ok(mat)
}

/// Places of words, and the words there: two words a row at size 65, so that (0, 64) is in the second word of row 0, (64, 64) in
/// the last word.
static WORDS: [(usize, u64); 7] = [
    (0, 1),
    (1, 1),
    (2, 2 + (1u64 << 63)),
    (3, 0),
    (4, 4),
    (128, 0),
    (129, 1),
];

/// Whether the word at each of these places is as told.
fn are_words(words: &[u64]) -> bool {
    if words.len() != 130 {
        return false;
    }
    for (at, word) in &WORDS {
        if words.get(*at).copied() != Some(*word) {
            return false;
        }
    }
    true
}

#[test]
fn bits_stand_at_their_places(rt: HostRuntime) {
    let are_there = match identity_with_two(rt.alloc()) {
        Ok(mat) => are_words(mat.words()),
        Err(_) => false,
    };
    assert!(rt; are_there);
}

/// Whether a matrix is equal to its copy, and where it is cleared is one of zeros, and the copy isn't.
fn is_cleared_alone(mat: &mut Mat, copy: &Mat, zero: &Mat) -> bool {
    let was_equal = *copy == *mat;
    mat.clear();
    was_equal && *mat == *zero && *copy != *mat
}

/// The same of the identity with two pairs more.
fn is_copied(alloc: Global) -> bool {
    let Ok(mut mat) = identity_with_two(alloc) else {
        return false;
    };
    let Ok(copy) = mat.copied(alloc) else {
        return false;
    };
    let Ok(zero) = Mat::zero(alloc, 65) else {
        return false;
    };
    is_cleared_alone(&mut mat, &copy, &zero)
}

#[test]
fn copies_stand_alone(rt: HostRuntime) {
    assert!(rt; is_copied(rt.alloc()));
}

fn number_of(pool: &mut Pool, mat: &Mat) -> Option<MatId> {
    if mat.size() == pool.size() {
        pool.intern(mat).ok()
    } else {
        None
    }
}

/// The numbers of three matrices, put one after another into a pool.
fn numbers_of(pool: &mut Pool, first: &Mat, second: &Mat, third: &Mat) -> [Option<MatId>; 5] {
    [
        number_of(pool, first),
        number_of(pool, second),
        number_of(pool, first),
        number_of(pool, third),
        number_of(pool, second),
    ]
}

/// What these are.
static NUMBERS: [Option<MatId>; 5] = [
    Some(MatId(0)),
    Some(MatId(1)),
    Some(MatId(0)),
    Some(MatId(2)),
    Some(MatId(1)),
];

/// Whether a pool has three matrices, of which it finds the second and gives the third.
fn has_three(pool: &Pool, second: &Mat, third: &Mat) -> bool {
    pool.len() == 3 && pool.find(second) == Some(MatId(1)) && *pool.get(MatId(2)) == *third
}

/// Puts three matrices into a pool. Tells whether each has its number.
fn are_numbered(alloc: Global, pool: &mut Pool) -> bool {
    let Ok(first) = matrix_of(alloc, 0, 65) else {
        return false;
    };
    let Ok(second) = matrix_of(alloc, 1, 65) else {
        return false;
    };
    let Ok(third) = Mat::identity(alloc, 65) else {
        return false;
    };
    numbers_of(pool, &first, &second, &third) == NUMBERS && has_three(pool, &second, &third)
}

/// Whether a pool has no matrix of zeros.
fn lacks_zero(alloc: Global, pool: &Pool) -> bool {
    match Mat::zero(alloc, 65) {
        Ok(zero) => pool.find(&zero).is_none(),
        Err(_) => false,
    }
}

/// Whether matrices that are put into a new pool have their numbers, and no other matrix has one.
fn is_filled(alloc: Global) -> bool {
    let mut pool = Pool::new(alloc, 65);
    are_numbered(alloc, &mut pool) && lacks_zero(alloc, &pool)
}

/// Numbers count from 0, and a matrix that is held keeps its own.
#[test]
fn pool_numbers_in_order(rt: HostRuntime) {
    assert!(rt; is_filled(rt.alloc()));
}
