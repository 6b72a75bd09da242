//! A Reed-Solomon code in evaluation form over the field of 256 elements.
//!
//! The bytes of the n columns at one place are the values, at the points 0 to n - 1, of one polynomial
//! of degree below k. So the first k columns are the data as they are, and any k columns give each
//! column as a sum, by coefficients that depend only on which columns they are.
#![tactic(auto)]

ghost use Rattle.std.specs.Prelude.{◌≡◌, ◌≢◌, ℕ, ◌^◌, ◌<◌, ◌≤◌, List, slice_index, bit_xor, count_ones, if◌then◌else◌, false};
ghost use Rattle.cod_code.specs.Codewords.{IsCodeword};
ghost use Rattle.cod_code.specs.Columns.{row_at, decode_row_at, columns_of, has_column, weight, combination, quotient, gamma};

pub use choosing::{lowest, marked};
use cod_field::{inv, mul};

mod choosing;
pub mod laws;

/// A code with `n` columns, of which the first `k` are data and the others parity.
#[derive(Clone, Copy, Debug, PartialEq, Eq)]
pub struct Code {
    /// How many columns there are, at most 16.
    pub n: u8,
    /// How many of them are data, at least one.
    pub k: u8,
    ghost some_data: { 1 ≤ k },
    ghost within_columns: { k ≤ n },
    ghost most: { n ≤ 16 },
}

impl Code {
    /// The code with these numbers of columns and of data columns.
    pub fn new(n: u8, k: u8) -> Code
        requires some_data { 1 ≤ k }
        requires within_columns { k ≤ n }
        requires most { n ≤ 16 }
        ensures columns { result.n ≡ n }
        ensures data { result.k ≡ k }
    {
        Code { n, k }
    }

    /// The coefficients of the data columns in column `i`, and zeros after them.
    ///
    /// The byte of column `i` is the sum of the data bytes, each times its coefficient.
    pub fn row(&self, i: u8) -> [u8; 16]
        requires { i < self.now.n }
        ensures places { result ≡ row_at self.now.k i }
        ensures sums { (v : List ℕ) → IsCodeword self.now.n self.now.k v → combination result v ≡ slice_index v i }
    {
        let mut row = [0; 16];
        for j in 0..self.k {
            row[j as usize] = data_weight(self.k, j, i);
        }
        row
    }

    /// The coefficients of the source columns in the wanted column, and zeros elsewhere.
    ///
    /// Bit j of `sources` says that column j is a source; exactly `k` bits are set. The wanted byte is
    /// the sum of the sources' bytes, each times its coefficient.
    pub fn decode_row(&self, sources: u16, wanted: u8) -> [u8; 16]
        requires count { count_ones sources ≡ self.now.k }
        requires below { sources < 2 ^ self.now.n }
        requires wanted { wanted < self.now.n }
        ensures places { result ≡ decode_row_at sources wanted }
        ensures elsewhere { (j : ℕ) → j < 16 → has_column sources j ≡ false → slice_index result j ≡ 0 }
        ensures decodes { (v : List ℕ) → IsCodeword self.now.n self.now.k v → combination result v ≡ slice_index v wanted }
    {
        let mut row = [0; 16];
        for j in 0..16u8 {
            if has(sources, j) {
                row[j as usize] = source_weight(sources, j, wanted);
            }
        }
        row
    }
}

/// Whether the column's bit is set.
fn has(sources: u16, column: u8) -> bool
    requires { column < 16 }
    ensures { result ≡ has_column sources column }
{
    sources >> column & 1 == 1
}

/// The quotient of `x - m` by `point - m`, where a difference is the exclusive or.
fn ratio(x: u8, point: u8, m: u8) -> u8
    requires { m ≢ point }
    ensures { result ≡ quotient (bit_xor x m) (bit_xor point m) }
{
    mul(x ^ m, inv(point ^ m))
}

/// The coefficient of the data column `point` in column `x`.
fn data_weight(k: u8, point: u8, x: u8) -> u8
    ensures { result ≡ gamma k x point }
{
    let mut product = 1;
    for m in 0..k {
        if m != point {
            product = mul(product, ratio(x, point, m));
        }
    }
    product
}

/// The coefficient of the source `point` in column `x`.
fn source_weight(sources: u16, point: u8, x: u8) -> u8
    ensures { result ≡ weight (columns_of sources) point x }
{
    let mut product = 1;
    for m in 0..16u8 {
        if m != point && has(sources, m) {
            product = mul(product, ratio(x, point, m));
        }
    }
    product
}

#[cfg(test)]
mod tests;
