// A step spends the ticket of the step before. Only the book makes tickets. They are two types of one field: one type with
// a parameter for the state would need two marker types and a phantom field, and name the tickets less plainly.

// The book is being set up.
#[derive(Drop)]
pub struct SetupTicket {
    pub(crate) month: u64,
}

// A month runs.
#[derive(Drop)]
pub struct MonthTicket {
    pub(crate) month: u64,
}
