//! A JSON value without fractions.
use u1_base::Text;

/// A JSON value (RFC 8259) whose numbers are whole numbers from -2^63 to 2^63-1.
#[cycle(json)]
#[derive(Drop)]
pub enum Json {
    Null,
    Bool(bool),
    Whole(i64),
    Text(Text),
    List(Vec<Json>),
    /// In a content the fields are sorted by the bytes of their names, and no name stands twice.
    Object(Vec<Field>),
}

/// A name and its value in an object.
#[cycle(json)]
#[derive(Drop)]
pub struct Field {
    pub name: Text,
    pub value: Json,
}
