//! Which columns are read.
ghost use Rattle.std.specs.Prelude.{◌≡◌, ◌^◌, ◌<◌, ◌≤◌, ℕ, count_ones, length};
ghost use Rattle.cod_code.specs.Choosing.{is_lowest, marked_below};
ghost use Rattle.cod_code.specs.Columns.{has_column};

/// The `count` lowest of the columns that are marked, as bits: bit j is for column j.
///
/// They are what `Code::decode_row` takes as sources.
pub fn lowest(marks: &[bool], count: u8) -> u16
    requires most { length marks.now ≤ 16 }
    requires enough { count ≤ marked_below marks.now (length marks.now) }
    ensures columns { (j : ℕ) → has_column result j ≡ is_lowest count marks.now j }
    ensures below { result < 2 ^ length marks.now }
    ensures count { count_ones result ≡ count }
{
    let mut sources = 0;
    let mut left = count;
    for j in 0..marks.len() {
        if left > 0 && marks[j] {
            sources |= 1 << j;
            left -= 1;
        }
    }
    sources
}

/// How many columns are marked.
pub fn marked(marks: &[bool]) -> usize
    ensures { result ≡ marked_below marks.now (length marks.now) }
{
    let mut count = 0;
    for j in 0..marks.len() {
        if marks[j] {
            count += 1;
        }
    }
    count
}
