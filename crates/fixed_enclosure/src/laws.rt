ghost use Rattle.std.specs.Prelude.{◌≡◌, ◌≢◌, ◌↔◌, ◌<◌, ◌≤◌, ◌+◌, ◌*◌, ℕ, ℤ, pos, ◌≤ℤ◌, ◌<ℤ◌, ◌+ℤ◌};
ghost use Rattle.std.specs.Prelude.{◌-ℤ◌, ◌*ℤ◌, unsigned_abs};
ghost use Rattle.std.specs.Int.{int_max};
ghost use Rattle.solid_base.specs.declared.geometry.Vec3.{Vec3};
ghost use Rattle.solid_base.specs.declared.geometry.Cube.{Cube};
ghost use Rattle.solid_base.specs.Range.{IsPointWithin, far};
ghost use Rattle.solid_base.specs.Ranges.{dot};
ghost use Rattle.fixed_enclosure.specs.declared.enclosures.Box3.{Box3};
ghost use Rattle.fixed_enclosure.specs.declared.enclosures.Sign.{Sign};
ghost use Rattle.fixed_enclosure.specs.Spans.{Span, IsSpan, Holds, IsFrom, IsUpTo, BoxHolds, IsIn};
ghost use Rattle.fixed_enclosure.specs.Spans.{IsBoxIn, box_of, enc_bound, area_bound};
ghost use Rattle.fixed_enclosure.specs.Roots.{whole_root, whole_root_up, floor_root, ceil_root};
ghost use Rattle.fixed_enclosure.specs.Values.{bounded, point_of, sum_of, minus_of, times_of};
ghost use Rattle.fixed_enclosure.specs.Values.{square_of, narrow_of, root_of, ratio_of, sign_of};
ghost use Rattle.fixed_enclosure.specs.Values.{cut, unit};
ghost use Rattle.fixed_enclosure.specs.Places.{Span3, offset, offset_spans, dot_span, SpansHold};
ghost use Rattle.fixed_enclosure.specs.Places.{Nested, AreNested};

/// A span holds what a span in it holds, and the same number counted in finer or in coarser parts.
pub fn holding()
    ensures wider { (m : ℕ) (s t : Span) (x : ℤ) → IsIn s t → Holds m s x → Holds m t x }
    ensures finer { (m n : ℕ) (s : Span) (x : ℤ) → Holds m s x → Holds (m * n) s (x *ℤ pos n) }
    ensures coarser { (m n : ℕ) (s : Span) (x : ℤ) → 0 < n →
        Holds (m * n) s (x *ℤ pos n) → Holds m s x }
{}

/// The box of a closed box holds each place of it, and lies in that of each closed box round it. A
/// box holds what a box in it holds.
pub fn boxes()
    ensures holds { (m : ℕ) (c : Cube) (p : Vec3) →
        ((c.lo.x *ℤ pos m) ≤ℤ p.x) × (p.x ≤ℤ (c.hi.x *ℤ pos m)) →
        ((c.lo.y *ℤ pos m) ≤ℤ p.y) × (p.y ≤ℤ (c.hi.y *ℤ pos m)) →
        ((c.lo.z *ℤ pos m) ≤ℤ p.z) × (p.z ≤ℤ (c.hi.z *ℤ pos m)) → BoxHolds m (box_of c) p }
    ensures isotone { (c d : Cube) → (d.lo.x ≤ℤ c.lo.x) × (c.hi.x ≤ℤ d.hi.x) →
        (d.lo.y ≤ℤ c.lo.y) × (c.hi.y ≤ℤ d.hi.y) → (d.lo.z ≤ℤ c.lo.z) × (c.hi.z ≤ℤ d.hi.z) →
        IsBoxIn (box_of c) (box_of d) }
    ensures wider { (m : ℕ) (a b : Box3) (p : Vec3) → IsBoxIn a b →
        BoxHolds m a p → BoxHolds m b p }
{}

/// A point holds one number, and what is computed with points alone is a point where it is whole
/// and within the bound.
pub fn points()
    ensures holds { (m : ℕ) (v x : ℤ) → Holds m (point_of v) x ↔ (x ≡ v *ℤ pos m) }
    ensures sum { (bound : ℕ) (v w : ℤ) →
        sum_of bound (point_of v) (point_of w) ≡ bounded bound (v +ℤ w) (v +ℤ w) }
    ensures difference { (bound : ℕ) (v w : ℤ) →
        minus_of bound (point_of v) (point_of w) ≡ bounded bound (v -ℤ w) (v -ℤ w) }
    ensures product { (v w : ℤ) →
        times_of (point_of v) (point_of w) ≡ bounded area_bound (v *ℤ w) (v *ℤ w) }
    ensures narrowing { (v : ℤ) →
        narrow_of (point_of (v *ℤ pos unit)) ≡ bounded enc_bound v v }
{}

/// The sum of spans in range is in range. It holds the sum of two numbers that they hold, and lies
/// in the sum of spans round them.
pub fn sums()
    ensures within { (bound : ℕ) (s t : Span) →
        IsSpan bound s → IsSpan bound t → IsSpan bound (sum_of bound s t) }
    ensures holds { (m bound : ℕ) (s t : Span) (x y : ℤ) →
        Holds m s x → Holds m t y → Holds m (sum_of bound s t) (x +ℤ y) }
    ensures isotone { (bound : ℕ) (p q s t : Span) →
        IsIn p s → IsIn q t → IsIn (sum_of bound p q) (sum_of bound s t) }
{}

/// The same of the difference.
pub fn differences()
    ensures within { (bound : ℕ) (s t : Span) →
        IsSpan bound s → IsSpan bound t → IsSpan bound (minus_of bound s t) }
    ensures holds { (m bound : ℕ) (s t : Span) (x y : ℤ) →
        Holds m s x → Holds m t y → Holds m (minus_of bound s t) (x -ℤ y) }
    ensures isotone { (bound : ℕ) (p q s t : Span) →
        IsIn p s → IsIn q t → IsIn (minus_of bound p q) (minus_of bound s t) }
{}

/// The same of the product, whose parts are the products of the operands' parts.
pub fn products()
    ensures within { (s t : Span) → IsSpan area_bound (times_of s t) }
    ensures holds { (m n : ℕ) (s t : Span) (x y : ℤ) →
        Holds m s x → Holds n t y → Holds (m * n) (times_of s t) (x *ℤ y) }
    ensures isotone { (p q s t : Span) → IsSpan enc_bound p → IsSpan enc_bound q →
        IsIn p s → IsIn q t → IsIn (times_of p q) (times_of s t) }
{}

/// The same of the square.
pub fn squares()
    ensures within { (s : Span) → IsSpan enc_bound s → IsSpan area_bound (square_of s) }
    ensures holds { (m : ℕ) (s : Span) (x : ℤ) →
        Holds m s x → Holds (m * m) (square_of s) (x *ℤ x) }
    ensures isotone { (p s : Span) → IsSpan enc_bound p →
        IsIn p s → IsIn (square_of p) (square_of s) }
{}

/// The same of an area over a unit: the number of parts stays, and each is a unit smaller.
pub fn narrowings()
    ensures within { (s : Span) → IsSpan area_bound s → IsSpan enc_bound (narrow_of s) }
    ensures holds { (m : ℕ) (s : Span) (x : ℤ) → Holds m s x → Holds (unit * m) (narrow_of s) x }
    ensures isotone { (p s : Span) → IsIn p s → IsIn (narrow_of p) (narrow_of s) }
{}

/// The same of the root: it holds the root of a number that the area holds, rounded down and up. So
/// each number from 0 on whose square is no less than that number is no less than the root's
/// lowest, and each whose square is no more than it, or than 0, is no more than the root's highest.
pub fn roots()
    ensures within { (s : Span) → IsSpan area_bound s → IsSpan enc_bound (root_of s) }
    ensures holds_floor { (m : ℕ) (s : Span) (x : ℤ) →
        Holds (m * m) s x → Holds m (root_of s) (floor_root x) }
    ensures holds_ceil { (m : ℕ) (s : Span) (x : ℤ) →
        Holds (m * m) s x → Holds m (root_of s) (ceil_root x) }
    ensures from { (m : ℕ) (s : Span) (x r : ℤ) → Holds (m * m) s x → pos 0 ≤ℤ r →
        x ≤ℤ (r *ℤ r) → IsFrom m (root_of s) r }
    ensures up_to { (m : ℕ) (s : Span) (x r : ℤ) → Holds (m * m) s x → pos 0 ≤ℤ r →
        (r *ℤ r) ≤ℤ int_max x (pos 0) → IsUpTo m (root_of s) r }
    ensures isotone { (p s : Span) → IsIn p s → IsIn (root_of p) (root_of s) }
{}

/// A root rounded down is the one number whose square is no more, while the next one's is more. A
/// root rounded up is the least number whose square is no less.
pub fn roots_by_squares()
    ensures down { (n r : ℕ) →
        (r ≡ whole_root n) ↔ ((r * r ≤ n) × (n < (r + 1) * (r + 1))) }
    ensures up { (n r : ℕ) →
        (r ≡ whole_root_up n) ↔ ((n ≤ r * r) × ((s : ℕ) → n ≤ s * s → r ≤ s)) }
    ensures floor { (z : ℤ) → (floor_root z *ℤ floor_root z) ≤ℤ int_max z (pos 0) }
    ensures ceil { (z : ℤ) → z ≤ℤ (ceil_root z *ℤ ceil_root z) }
{}

/// The same of the ratio. The exact ratio of x parts to the size is x units where each step has as
/// many parts as the size; it is cut at 2 and -2.
pub fn ratios()
    ensures within { (size : ℤ) (s : Span) → pos 1 ≤ℤ size →
        IsSpan enc_bound s → IsSpan enc_bound (ratio_of size s) }
    ensures holds { (m : ℕ) (size : ℤ) (s : Span) (x : ℤ) → pos 1 ≤ℤ size → Holds m s x →
        Holds (m * unsigned_abs size) (ratio_of size s)
        (cut (pos (2 * unit) *ℤ pos (m * unsigned_abs size)) (x *ℤ pos unit)) }
    ensures isotone { (size : ℤ) (p s : Span) → pos 1 ≤ℤ size →
        IsIn p s → IsIn (ratio_of size p) (ratio_of size s) }
{}

/// A sign other than `Open` is that of each number held, and of each span within.
pub fn signs()
    ensures positive { (m : ℕ) (s : Span) (x : ℤ) → 0 < m → Holds m s x →
        sign_of s ≡ Sign.Positive → pos 0 <ℤ x }
    ensures negative { (m : ℕ) (s : Span) (x : ℤ) → 0 < m → Holds m s x →
        sign_of s ≡ Sign.Negative → x <ℤ pos 0 }
    ensures isotone { (bound : ℕ) (p s : Span) → IsSpan bound p → IsIn p s →
        sign_of s ≢ Sign.Open → sign_of p ≡ sign_of s }
{}

/// The same of the way from a point in range, and of the scalar product over a unit, whose parts
/// are a unit smaller than the products of the operands' parts.
pub fn places()
    ensures offset_holds { (m : ℕ) (s : Span3) (from p : Vec3) → SpansHold m s p →
        SpansHold m (offset_spans s from) (offset m from p) }
    ensures offset_isotone { (p s : Span3) (from : Vec3) → IsPointWithin far from →
        AreNested p s → AreNested (offset_spans p from) (offset_spans s from) }
    ensures dot_holds { (m n : ℕ) (a b : Span3) (p q : Vec3) → SpansHold m a p → SpansHold n b q →
        Holds (unit * (m * n)) (dot_span a b) (dot p q) }
    ensures dot_isotone { (a b p q : Span3) → AreNested a p → AreNested b q →
        Nested enc_bound (dot_span a b) (dot_span p q) }
{}
