ghost use Rattle.std.specs.Prelude.{◌≡◌, nat_lt};
ghost use Rattle.producer.specs.Parts.{are_within};
ghost use Rattle.producer.specs.Payloads.{number_in};

use rest_calls::Row;

/// The partition that a record names is one of so many. If it names none, there has to be one.
fn is_within(row: &Row, count: usize) -> bool
    ensures { result ≡ nat_lt (number_in row.now) count }
{
    match row.partition {
        Some(partition) => (partition.unsigned_abs() as usize) < count,
        None => count > 0,
    }
}

/// Each record has a partition among so many.
pub(crate) fn are_within(rows: &[Row], count: usize) -> bool
    ensures { result ≡ are_within count rows.now }
{
    rows.iter().all(|row| is_within(row, count))
}
