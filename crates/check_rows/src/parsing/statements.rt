//! Statements as texts.

use crate::parsing::parts::{show_assignment, show_call, show_expression, show_lvalue};
use crate::parsing::printer::Printer;
use vl_tree::parts::Parts;
use vl_tree::source_tree::{AssignMark, CaseItem, CaseKeyword, Statement};
use vl_tree::tree::Expression;

fn mark(mark: AssignMark) -> &'static str {
    match mark {
        AssignMark::Blocking => " = ",
        AssignMark::Nonblocking => " <= ",
    }
}

fn word(keyword: CaseKeyword) -> &'static str {
    match keyword {
        CaseKeyword::Case => "case",
        CaseKeyword::Casez => "casez",
    }
}

fn show_labels(out: &mut Printer, labels: &Parts<Expression>) {
    for label in labels.as_slice() {
        out.word(" ");
        show_expression(out, label);
    }
}

/// A statement.
#[cycle(show)]
pub fn show_statement(out: &mut Printer, statement: &Statement) {
    match statement {
        Statement::Null(place) => out.at("null", *place),
        Statement::Block(place, statements) => {
            out.at("begin", *place);
            out.word("{");
            for each in statements.as_slice() {
                show_statement(out, each);
                out.word(";");
            }
            out.word("}");
        }
        Statement::If(place, condition, then, otherwise) => {
            out.at("if", *place);
            out.word(" ");
            show_expression(out, condition);
            out.word("{");
            show_statement(out, then.get());
            out.word("}");
            if let Some(otherwise) = otherwise {
                out.word(" else{");
                show_statement(out, otherwise.get());
                out.word("}");
            }
        }
        Statement::Case(place, keyword, selector, items) => {
            out.at(word(*keyword), *place);
            out.word(" ");
            show_expression(out, selector);
            out.word("{");
            for item in items.as_slice() {
                show_case_item(out, item);
                out.word(";");
            }
            out.word("}");
        }
        Statement::For(place, start, condition, step, body) => {
            out.at("for", *place);
            out.word("(");
            show_assignment(out, start);
            out.word("; ");
            show_expression(out, condition);
            out.word("; ");
            show_assignment(out, step);
            out.word("){");
            show_statement(out, body.get());
            out.word("}");
        }
        Statement::Repeat(place, count, body) => {
            out.at("repeat", *place);
            out.word(" ");
            show_expression(out, count);
            out.word("{");
            show_statement(out, body.get());
            out.word("}");
        }
        Statement::Assign(place, target, sign, value) => {
            out.place(*place);
            out.word(" ");
            show_lvalue(out, target);
            out.word(mark(*sign));
            show_expression(out, value);
        }
        Statement::System(place, call) => {
            out.place(*place);
            show_call(out, call);
        }
    }
}

#[cycle(show)]
fn show_case_item(out: &mut Printer, item: &CaseItem) {
    match item {
        CaseItem::Labels(place, labels, statement) => {
            out.place(*place);
            show_labels(out, labels);
            out.word(": ");
            show_statement(out, statement.get());
        }
        CaseItem::Default(place, statement) => {
            out.place(*place);
            out.word("default: ");
            show_statement(out, statement.get());
        }
    }
}
