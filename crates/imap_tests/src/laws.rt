//! Laws that are called. What they say is proved where they stand.

use imap_text::InternalDate;

#[test]
fn laws_of_mod_sequences() {
    imap_modseq::laws::numbers_are_places::<u64>();
    imap_modseq::laws::new_comes_last::<u64>();
    imap_modseq::laws::numbers_cover();
    imap_modseq::laws::numbers_rise();
    imap_modseq::laws::numbers_differ();
    imap_modseq::laws::numbers_stay();
    imap_modseq::laws::new_is_highest();
    imap_modseq::laws::own_changes_are_hidden();
}

#[test]
fn laws_of_rights_and_texts() {
    imap_rights::laws::letters_are_read();
    imap_rights::laws::rights_are_those_given();
    imap_text::laws::header_and_text();
    imap_text::laws::headers_are_shortest();
    imap_text::laws::each_line_once();
    if let Some(date) = InternalDate::of_moment(0) {
        imap_text::laws::dates_are_read_back(&date);
    }
}
