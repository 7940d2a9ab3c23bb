/// Turns a table's answer into arms: those of the rows, by their places from 0, and last `_`, which is done
/// where no row is the word, or where the row that is has no arm here, as
/// `match_words!(GATES, word; 0 => and_gate(), 1 => or_gate(); _ => other())`. With `any_case` in front of the
/// table, words are told apart by `find_any_case`.
#[macro_export]
macro_rules! match_words {
    (any_case $table:expr, $word:expr; $($row:pat => $arm:expr),* $(,)?; _ => $rest:expr) => {
        match $table.find_any_case($word) {
            $(Some($row) => $arm,)*
            _ => $rest,
        }
    };
    ($table:expr, $word:expr; $($row:pat => $arm:expr),* $(,)?; _ => $rest:expr) => {
        match $table.find($word) {
            $(Some($row) => $arm,)*
            _ => $rest,
        }
    };
}
