use crate::match_words;
use crate::table::WordTable;

const GATES: WordTable<4> = WordTable {
    rows: &[b"and", b"Or", b"", b"and"],
};

fn inputs_of(gate: &[u8]) -> u8 {
    match_words!(GATES, gate; 0 => 2, 1 => 3; _ => 0)
}

fn inputs_in_any_case(gate: &[u8]) -> u8 {
    match_words!(any_case GATES, gate; 0 => 2, 1 => 3; _ => 0)
}

#[test]
fn words_are_found_by_their_first_row(rt: HostRuntime) {
    let gates = WordTable::<2>::new(&[b"nand", b"nor"]);
    assert_eq!(rt; gates.find(b"nor"), Some(1));
    assert_eq!(rt; gates.find_any_case(b"NoR"), Some(1));
    assert_eq!(rt; GATES.find(b"and"), Some(0));
    assert_eq!(rt; GATES.find(b""), Some(2));
    assert_eq!(rt; GATES.find(b"or"), None);
    assert_eq!(rt; GATES.find(b"an"), None);
    assert_eq!(rt; GATES.find_any_case(b"oR"), Some(1));
    assert_eq!(rt; GATES.find_any_case(b"or "), None);
    assert_eq!(rt; inputs_of(b"Or"), 3);
    assert_eq!(rt; inputs_of(b"AND"), 0);
    assert_eq!(rt; inputs_in_any_case(b"AND"), 2);
}
