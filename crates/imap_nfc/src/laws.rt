//! What holds of every text that is brought to Normalization Form C. The functions do nothing: their
//! contracts are the laws.

ghost use Rattle.imap_nfc.specs.Nfc.{ComposedTextsStay, TextsAreComposed};

/// A text in Normalization Form C stays as it is.
pub fn composed_texts_stay()
    ensures { ComposedTextsStay }
{}

/// A text that was brought to Normalization Form C is in it.
pub fn texts_are_composed()
    ensures { TextsAreComposed }
{}
