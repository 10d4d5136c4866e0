// Each line as a text, and the calls that write one.
#![tactic(auto, using(text::proofs::Pastes::putting))]

ghost use Rattle.rules.specs.declared.refusal.Refusal.TheVariants.{BufferShort};
ghost use Rattle.rules.specs.Questions.{terms_question};
ghost use Rattle.text.specs.Buffer.{Wrote};
ghost use Rattle.book.specs.View.{view};
ghost use Rattle.june_lines.specs.Texts.{terms_text, refused_text, WroteTerms};

use book::{Book, MonthTicket};
use lines::faults::SheetFault;
use rules::answers::Terms;
use rules::refusal::Refusal;
use text::writing::{Text, Writer, write};

// RESOURCE PAYMENT DEDUCTION
#[derive(Clone, Copy)]
struct TermsLine {
    resource: u64,
    terms: Terms,
}

impl Text for TermsLine {
    ghost text = { λ x. terms_text x.resource x.terms.payment x.terms.deduction };

    fn put(&self, w: &mut Writer<'_>) {
        w.number(self.resource);
        w.later(self.terms.payment);
        w.later(self.terms.deduction);
        w.end();
    }
}

// refused NUMBER LINE FIELD
#[derive(Clone, Copy)]
struct RefusedLine<'a> {
    fault: &'a SheetFault,
}

impl<'a> Text for RefusedLine<'a> {
    ghost text = { λ x. refused_text x.fault.now.number x.fault.now.line x.fault.now.field };

    fn put(&self, w: &mut Writer<'_>) {
        w.bytes(b"refused");
        w.later(self.fault.number);
        w.later(self.fault.line);
        w.later(self.fault.field);
        w.end();
    }
}

// What the resource is paid and deducted for the month in hand.
pub fn resource_line(
    book: &Book,
    ticket: &MonthTicket,
    resource: u64,
    out: &mut [u8],
) -> Result<usize, Refusal>
    ensures { WroteTerms resource (terms_question (view book.now) ticket.now.month resource) out.old out.new result }
{
    let terms = book.terms(ticket, resource)?;
    write(&TermsLine { resource, terms }, out, Refusal::BufferShort)
}

// The fault of a sheet that was refused.
pub fn refused_line(fault: &SheetFault, out: &mut [u8]) -> Result<usize, Refusal>
    ensures { Wrote BufferShort (refused_text fault.now.number fault.now.line fault.now.field) out.old out.new result }
{
    write(&RefusedLine { fault }, out, Refusal::BufferShort)
}
