//! How many fields the next record has.

/// Where a byte stands in a record.
#[derive(Clone, Copy)]
enum Within {
    /// Between two records, or in a mark before the first one.
    Before,
    /// At the start of a field.
    Start,
    /// In a field without quotes, or behind its closing quote.
    Field,
    /// Between the quotes of a field.
    Quotes,
    /// Just behind a quote that closes a field, or is the first of two.
    Quote,
}

/// How many fields the record has that a text begins with. It is a guess by which room is taken, and no more is said of it.
pub fn fields_ahead(text: &[u8]) -> usize {
    let mut fields: usize = 1;
    let mut within = Within::Before;
    for byte in text {
        within = match (within, *byte) {
            (Within::Quotes, b'"') => Within::Quote,
            (Within::Quotes, _) => Within::Quotes,
            (Within::Before | Within::Start | Within::Quote, b'"') => Within::Quotes,
            (Within::Before, b'\r' | b'\n' | 128..) => Within::Before,
            (_, b'\r' | b'\n') => return fields,
            (_, b',') => {
                fields = fields.saturating_add(1);
                Within::Start
            }
            _ => Within::Field,
        };
    }
    fields
}
