//! What is true of the order, and of sorting by it. Each function here does nothing: its contract is the law.
ghost use Rattle.std.specs.Prelude.{◌≡◌, ℕ, List, [], ◌∷◌, ◌++◌, fold, take};
ghost use Rattle.std.specs.Cmp.{IsTotalOrder};
ghost use Rattle.std.specs.List.Sorted.{IsPermutation, IsSorted, IsStable};
ghost use Rattle.std.specs.declared.cmp.Ordering.TheVariants.{Equal};
ghost use Rattle.ft_base.specs.declared.row.Value.{Value};
ghost use Rattle.row_sort.specs.Order.{value_order, row_order};
ghost use Rattle.row_sort.specs.Sorting.{Comparison, sorted};
ghost use Rattle.row_sort.specs.declared.order.Direction.{Direction};

/// The order is a total preorder: a value ties with itself, two that change places are in the turned order, and it is
/// transitive. So is the order of rows by several keys.
pub fn order_is_lawful<T>()
    ensures itself { (by : Direction) (value : Value) → value_order by value value ≡ Equal }
    ensures values { (by : Direction) → IsTotalOrder (value_order by) }
    ensures rows { (keys : List Direction) → IsTotalOrder (row_order {T = T} keys) }
{}

/// A sorted list has the same values. By a total preorder it rises, and values that tie keep their order; no other list
/// does both.
pub fn sorted_is_stable<T>()
    ensures same { (order : Comparison T) (xs : List T) → IsPermutation xs (sorted order xs) }
    ensures rises { (order : Comparison T) (xs : List T) → IsTotalOrder order → IsSorted order (sorted order xs) }
    ensures stable { (order : Comparison T) (xs : List T) → IsTotalOrder order
        → IsStable order xs (sorted order xs) }
    ensures only { (order : Comparison T) (xs : List T) (ys : List T) → IsTotalOrder order
        → IsSorted order ys → IsStable order xs ys → ys ≡ sorted order xs }
{}

/// Whoever takes values in one by one, and keeps only the first so many each time, has the first of all of them.
pub fn first_of_all<T>()
    ensures one { (order : Comparison T) (most : ℕ) (xs : List T) (x : T) → IsTotalOrder order
        → take most (sorted order (take most (sorted order xs) ++ x ∷ []))
        ≡ take most (sorted order (xs ++ x ∷ [])) }
    ensures all { (order : Comparison T) (most : ℕ) (xs : List T) → IsTotalOrder order
        → fold (λ first x. take most (sorted order (first ++ x ∷ []))) [] xs ≡ take most (sorted order xs) }
{}
