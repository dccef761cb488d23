// How a row is cut into its pieces: document 01, "A row is lent as one slice, its summaries end to end, cut by their length fields".
#![tactic(auto)]

ghost use Rattle.std.specs.Prelude.{◌≡◌, ◌<◌, min, length, take};
ghost use Rattle.row.specs.Row.{first_length, row_pieces, end_to_end};

// The length of a row's first piece. Where the row is not empty it is at least 1.
pub fn first_length(row: &[u8]) -> usize
    ensures { result ≡ first_length row.now }
{
    let rest = row.len();
    if rest < 2 {
        return rest;
    }
    let field = number::read_u16(row, 0) as usize;
    if field < 6 || rest < field {
        return rest;
    }
    field
}

// How many pieces a row has, where 65 stands for more than 64.
pub fn count_pieces(row: &[u8]) -> usize
    ensures { result ≡ min 65 (length (row_pieces row.now)) }
{
    let mut rest = row;
    for n in 0..65 {
        if rest.is_empty() {
            return n;
        }
        rest = &rest[first_length(rest)..];
    }
    65
}

// Where the first n pieces of a row end.
pub fn end_of(row: &[u8], n: usize) -> usize
    ensures { result ≡ length (end_to_end (take n (row_pieces row.now))) }
{
    let mut at = 0;
    for _ in 0..n {
        at += first_length(&row[at..]);
    }
    at
}
