// Laws of the types and definitions. Each function does nothing: its contract is the law.
ghost use Rattle.std.specs.Prelude.{◌≡◌, ◌<◌, ◌≤◌, ◌⊎◌, List, length, map};
ghost use Rattle.std.specs.List.{Contains};
ghost use Rattle.std.specs.Cmp.{IsTotalOrder};
ghost use Rattle.std.specs.declared.cmp.Ordering.{Ordering};
ghost use Rattle.prof_base.specs.Ordered.{insert_sorted, Rises, place, numbers_from};

use crate::ids::Micros;
use crate::interval::{MAX_INTERVAL, MAX_ROUNDED};
use crate::text::Text;

/// States the limits that contracts cite by name: the greatest interval, the greatest rounded
/// interval, the length of the longest text and the latest time, 2^53 - 1.
pub fn limits()
    ensures interval { MAX_INTERVAL ≡ 1000000000 }
    ensures rounded { MAX_ROUNDED ≡ 2000000000 }
    ensures text { Text.MAX_LEN ≡ 200 }
    ensures time { Micros.MAX ≡ 9007199254740991 }
{}

fn crosses<T: Send + Sync>() {}

/// Threads can pass texts to each other and share them: this compiles only while a text is `Send`
/// and `Sync`.
pub fn texts_cross_threads() {
    crosses::<Text>();
}

/// Inserting into a rising list keeps it rising. The inserted element is then in the list, as are
/// those that were there, and no others are.
pub fn insertion_keeps_order<T>()
    ensures rises { (R : T → T → Ordering) → IsTotalOrder R → (x : T) (xs : List T) → Rises R xs → Rises R (insert_sorted R x xs) }
    ensures inserted { (R : T → T → Ordering) → ((a b : T) → R a b ≡ Ordering.Equal → a ≡ b) → (x : T) (xs : List T) → Contains (insert_sorted R x xs) x }
    ensures kept { (R : T → T → Ordering) (x z : T) (xs : List T) → Contains xs z → Contains (insert_sorted R x xs) z }
    ensures no_other { (R : T → T → Ordering) (x z : T) (xs : List T) → Contains (insert_sorted R x xs) z → (x ≡ z) ⊎ Contains xs z }
{}

/// The places of the elements of a rising list, in order, are 1, 2 and so on. An element of a list
/// has a smaller place than all that are greater, and a place within the list.
pub fn places_number_a_rising_list<T>()
    ensures numbered { (R : T → T → Ordering) → IsTotalOrder R → (xs : List T) → Rises R xs → map (place R xs) xs ≡ numbers_from 1 (length xs) }
    ensures rise { (R : T → T → Ordering) → IsTotalOrder R → (x y : T) (xs : List T) → R x y ≡ Ordering.Less → Contains xs x → place R xs x < place R xs y }
    ensures within { (R : T → T → Ordering) → IsTotalOrder R → (x : T) (xs : List T) → Contains xs x → place R xs x ≤ length xs }
{}
