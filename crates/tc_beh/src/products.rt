// Products of sets that are known by number. A product is forgotten where another one comes to its place.
ghost use Rattle.std.specs.Prelude.{◌≡◌, IfOk, IfSome};
ghost use Rattle.tc_mat.specs.Held.{Held};
ghost use Rattle.tc_beh.specs.Remembered.{IsProduct, AreRemembered};

use crate::places::{PLACES, place_of};
use std::alloc::Global;
use std::marker::Model;
use tc_base::NoMemory;

/// Two sets, and the one that leads by the first and then by the second, by their numbers.
#[derive(Clone, Copy)]
struct Product {
    first: u32,
    second: u32,
    product: u32,
}

/// Some products of sets that are known by number.
#[derive(Drop)]
pub(crate) struct Products {
    places: Vec<Option<Product>>,
}

impl Model for Products {
    ghost use Rattle.std.specs.Prelude.{◌≡◌, List, Option, length};
    ghost use Rattle.tc_beh.specs.declared.products.Product.{Product};

    ghost Value = { List (Option Product) };

    ghost view = { λ p. p.places.items };

    ghost invariant = { λ p. length p.places.items ≡ 4096 };
}

impl Products {
    /// No products.
    ///
    /// # Errors
    ///
    /// There is no memory for them.
    pub(crate) fn none(alloc: Global) -> Result<Products, NoMemory>
        ensures { IfOk result (λ p. (h : Held) → AreRemembered h p) }
    {
        let places = vec![in alloc; None; PLACES]?;
        Ok(Products { places })
    }

    /// The number of the product of two sets, if it is remembered.
    pub(crate) fn get(&self, first: u32, second: u32) -> Option<u32>
        ensures { IfSome result (λ k. (h : Held) → AreRemembered h self.now
            → IsProduct h first second k) }
    {
        let known = self.places[place_of(first, second)]?;
        if known.first == first && known.second == second {
            Some(known.product)
        } else {
            None
        }
    }

    /// Remembers the product of two sets.
    pub(crate) fn keep(&mut self, first: u32, second: u32, product: u32)
        ensures { (h : Held) → AreRemembered h self.old → IsProduct h first second product
            → AreRemembered h self.new }
    {
        self.places[place_of(first, second)] = Some(Product {
            first,
            second,
            product,
        });
    }
}
