// The log-space softmax of many leaves (vmf.rs, the E-step of movmf_once; document 01, 'Mixture'), over lent rows of
// their log densities in k groups. The exponentials of a block of leaves are worked out in one run, eight at a time
// across the borders of the rows.
#![tactic(auto)]

ghost use Rattle.std.specs.Prelude.{◌≡◌, true, false, ◌++◌, map, ◌+◌, ◌*◌, ◌-◌, ◌<◌, ◌≤◌, length, take, drop};
ghost use Rattle.std.specs.Float.{inf};
ghost use Rattle.std.specs.Float.Ieee.{is_nan};
ghost use Rattle.float.specs.Arithmetic.{plus_zero, max_of};
ghost use Rattle.exponential.specs.Exponential.{exp_of};
ghost use Rattle.rows.specs.Rows.{Alike, put_part, row_of};
ghost use Rattle.mixture_softmax.specs.Softmax.{greatest_from};
ghost use Rattle.mixture_softmax.specs.Leaves.{shares_up_to, logs_up_to, LeafRows};
ghost use Rattle.mixture_softmax.specs.Blocks.{less_by, from_greatest, log_sum_over, log_over_at, from_greatests};
ghost use Rattle.mixture_softmax.specs.Blocks.{from_logs, logs_over, Block, Beside};

// The greater of g and x, the first of equals. g is no NaN, so that one comparison is enough, where `float::max` needs
// two.
fn greater(g: f64, x: f64) -> f64
    requires { is_nan g ≡ false }
    ensures { (result ≡ max_of g x) × (is_nan result ≡ false) }
{
    if g < x { x } else { g }
}

// The greatest element, from -infinity; a NaN is passed over.
fn greatest(row: &[f64]) -> f64
    ensures { result ≡ greatest_from (inf true) row.now }
{
    let mut g = -1.0 / 0.0;
    for x in row {
        g = greater(g, *x);
    }
    g
}

// e becomes the row less g, element by element.
fn less(e: &mut [f64], row: &[f64], g: f64)
    requires { Alike e.old row.now }
    ensures { e.new ≡ less_by g row.now }
{
    rows::put(e, |j| row[j] - g);
}

// Eight elements become their exponentials.
fn exp_eight(e: &mut [f64])
    requires { length e.old ≡ 8 }
    ensures { e.new ≡ map exp_of e.old }
{
    let f = exponential::exp8([e[0], e[1], e[2], e[3], e[4], e[5], e[6], e[7]]);
    e.copy_from_slice(&f);
}

// The first n elements become their exponentials, sixteen at a time; so do up to fifteen after them. In two calls a
// turn `exp_eight` stays a function of its own: within the loop the compiler puts its four chains of divisions one
// after the other, which takes a third longer.
fn exp_front(e: &mut [f64], n: usize)
    requires { n + 15 ≤ length e.old }
    ensures { take n e.new ≡ map exp_of (take n e.old) }
{
    for j in (0..n).step_by(16) {
        exp_eight(&mut e[j..j + 8]);
        exp_eight(&mut e[j + 8..j + 16]);
    }
}

// e becomes the row less its greatest.
fn less_greatest(e: &mut [f64], row: &[f64])
    requires { Alike e.old row.now }
    ensures { e.new ≡ from_greatest row.now }
{
    less(e, row, greatest(row));
}

// The m rows of e become the rows less their greatest. A struct of rows, m and k was tried: all contracts kept their
// clause about e, and had to name its slice at the entry, so they got longer.
fn less_greatests(e: &mut [f64], rows: &[f64], m: usize, k: usize)
    requires { Beside (length e.old) (length rows.now) m k }
    ensures { e.new ≡ from_greatests k rows.now m ++ drop (m * k) e.old }
{
    for i in 0..m {
        let at = i * k;
        // Written, so cut here; rows says why.
        less_greatest(&mut e[at..at + k], rows::row(rows, k, i));
    }
}

// The log-sum of a row, of which e holds the exponentials; e becomes the row less that.
fn less_log_sum(e: &mut [f64], row: &[f64]) -> f64
    requires { Alike e.old row.now }
    ensures { (result ≡ log_sum_over row.now e.old)
        × (e.new ≡ less_by result row.now) }
{
    let lse = greatest(row) + logarithm::ln(vector::fold(e));
    less(e, row, lse);
    lse
}

// The same of leaf i among m, with its rows of e and of the rows.
fn leaf_log_sum(e: &mut [f64], rows: &[f64], i: usize, m: usize, k: usize) -> f64
    requires { (i < m) × (Beside (length e.old) (length rows.now) m k) }
    ensures { (result ≡ log_over_at k rows.now e.old i)
        × (e.new ≡ put_part e.old (i * k) k (less_by result (row_of rows.now k i))) }
{
    let at = i * k;
    // Written, so cut here; rows says why.
    less_log_sum(&mut e[at..at + k], rows::row(rows, k, i))
}

// The rows of e become the rows less their log-sums; l, with the weight of each leaf times its log-sum added in order.
fn less_log_sums(e: &mut [f64], rows: &[f64], weights: &[f64], k: usize, l: f64) -> f64
    requires { Beside (length e.old) (length rows.now) (length weights.now) k }
    ensures { let m = length weights.now in
        let old = e.old in
        (result ≡ logs_over k rows.now old weights.now l m)
        × (e.new ≡ from_logs k rows.now old m ++ drop (m * k) old) }
{
    let m = weights.len();
    let mut s = l;
    for (i, w) in weights.iter().enumerate() {
        s = s + w * leaf_log_sum(e, rows, i, m, k);
    }
    s
}

// A block of leaves.
fn log_softmax_block(rows: &mut [f64], weights: &[f64], k: usize, l: f64) -> f64
    requires { Block (length rows.old) (length weights.now) k }
    ensures { let m = length weights.now in
        (result ≡ logs_up_to k rows.old weights.now l m)
        × (rows.new ≡ shares_up_to k rows.old m) }
{
    let mut e = [0.0; 271];
    let n = rows.len();
    less_greatests(&mut e, rows, weights.len(), k);
    exp_front(&mut e, n);
    let s = less_log_sums(&mut e, rows, weights, k, l);
    exp_front(&mut e, n);
    rows::copy(rows, &e[..n]);
    s
}

// The rows of log densities become the leaves' responsibilities; the log-likelihood. A block has 256 elements at most.
pub fn log_softmax_rows(rows: &mut [f64], weights: &[f64], k: usize) -> f64
    requires { LeafRows (length rows.old) (length weights.now) k }
    ensures { let m = length weights.now in
        (result ≡ logs_up_to k rows.old weights.now plus_zero m)
        × (rows.new ≡ shares_up_to k rows.old m) }
{
    let m = weights.len();
    let most = 256 / k;
    let mut l = 0.0;
    for i in (0..m).step_by(most) {
        let end = m.min(i + most);
        l = log_softmax_block(&mut rows[i * k..end * k], &weights[i..end], k, l);
    }
    l
}
