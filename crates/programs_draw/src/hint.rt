// Why draw printed a line of zeros, for people, on standard error: what is printed on standard output is fixed.
use std::io::Print;

// Why a draw printed a line of zeros, and nothing was drawn. It is said in three texts: a check's time grows with the
// square of a text's length.
pub(crate) fn hint_zeros<E: Print>(errors: &E) {
    say_nothing_drawn(errors);
    say_what_14_is(errors);
    say_what_others_are(errors);
}

fn say_nothing_drawn<E: Print>(errors: &E) {
    let _ = errors.write_all(b"hint: nothing was drawn, and the last line's code says why.\n");
}

fn say_what_14_is<E: Print>(errors: &E) {
    let _ = errors.write_all(
        b"14: the first line is not `seed S span N weights W W W W W W W W count K` (single blanks, decimals without needless zeros, K 1..100000, at most 128 bytes).\n",
    );
}

fn say_what_others_are<E: Print>(errors: &E) {
    let _ = errors.write_all(
        b"17: S is not 1..4294967295.\n18: N is not 1..1000000, a weight is above 100, or the second one, wake's, is 0.\n2: the input ended before an accepted start.\n",
    );
}
