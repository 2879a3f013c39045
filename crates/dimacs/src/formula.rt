// A formula: its clauses one after another in a row, each as its length and then its literals. Literal 2i says that variable i is
// 1, literal 2i + 1 that it is 0; the text calls variable i by the number i + 1.
#[derive(Drop)]
pub struct Formula {
    pub variables: u16,
    pub row: Vec<u16>,
}
