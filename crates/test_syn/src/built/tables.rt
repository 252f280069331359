//! Each form in each.

use crate::built::again::{Again, Asked, Question, read_again};
use crate::built::forms::{ALONE, AROUND, BACKS, BRACES, FRONTS, INSIDE, OPERATORS, PATHS, PLACES};
use crate::built::judged::{Case, Finding, put_judged};
use std::alloc::Global;
use syn::Position;
use test_support::{Page, Unanswered};

const POSITIONS: [Position; 4] = [
    Position::Plain,
    Position::InCondition,
    Position::InArm,
    Position::InStatement,
];

// A list of forms or of operands.
#[derive(Clone, Copy)]
enum List {
    // The forms with an operand: a front, a back, and each operator with the one before it and with the one behind it.
    Around,
    // Forms with operands: those that are given, with `z` or with `x` and `y`.
    Operands,
    // A struct's braces.
    Braces,
    // Paths, before which these may stand.
    Paths,
    // Places of own parts.
    Places,
    // Forms of each level.
    Levels,
    // What stands at two depths: each of these forms with each of those that stand innermost.
    Nested,
}

// Forms that are put round operands, each round each.
#[derive(Clone, Copy)]
struct Table {
    forms: List,
    operands: List,
    // Whether there are three depths, which are not read as texts too.
    is_deep: bool,
}

const TABLES: [Table; 4] = [
    Table {
        forms: List::Around,
        operands: List::Operands,
        is_deep: false,
    },
    Table {
        forms: List::Braces,
        operands: List::Paths,
        is_deep: false,
    },
    Table {
        forms: List::Places,
        operands: List::Operands,
        is_deep: false,
    },
    Table {
        forms: List::Levels,
        operands: List::Nested,
        is_deep: true,
    },
];

// What is counted of a form with an operand.
#[derive(Clone, Copy)]
enum Counted {
    // The tree that is built of it.
    Tree,
    // What is read of it, where no operand is put there by hand.
    Text,
}

// What is found of some trees.
#[derive(Clone, Copy)]
struct Tally {
    // How many there are.
    trees: usize,
    // In how many positions one gains parentheses.
    gaining: usize,
    // In how many positions the same texts are read, where no operand is put there by hand.
    read: usize,
    // How much is wrong.
    wrong: usize,
}

const NOTHING: Tally = Tally {
    trees: 0,
    gaining: 0,
    read: 0,
    wrong: 0,
};

impl Tally {
    // One thing more that is wrong. The first is put, in a line.
    fn put_wrong(&mut self, what: &str, page: &mut Page) {
        if self.wrong == 0 {
            write!(page, "wrong: {what}\n");
        }
        self.wrong = self.wrong.saturating_add(1);
    }

    // One tree more, of which that is found, and is said so.
    fn put_found(&mut self, found: Finding, said: &str, page: &mut Page) {
        self.trees = self.trees.saturating_add(1);
        self.gaining = self.gaining.saturating_add(found.gaining);
        if !found.is_right {
            self.put_wrong(said, page);
        }
    }

    // One tree more.
    fn put_tree(&mut self, text: &str, page: &mut Page) -> Result<(), Unanswered> {
        let mut said = Page::new(page.alloc());
        let positions = POSITIONS.as_slice();
        let found = put_judged(Case { text, positions }, &mut said)?;
        self.put_found(found, said.whole()?, page);
        Ok(())
    }

    // One text more in a position. Whether it is right.
    fn read_in(
        &mut self,
        alloc: Global,
        position: Position,
        text: &str,
    ) -> Result<bool, Unanswered> {
        let question = Question::IsKept;
        let asked = Asked {
            position,
            text,
            question,
        };
        match read_again(alloc, asked)? {
            Again::Unread => Ok(true),
            found => {
                self.read = self.read.saturating_add(1);
                Ok(matches!(found, Again::Right))
            }
        }
    }

    // One text more.
    fn put_text(&mut self, text: &str, page: &mut Page) -> Result<(), Unanswered> {
        let mut is_right = true;
        for position in POSITIONS {
            is_right &= self.read_in(page.alloc(), position, text)?;
        }
        if !is_right {
            self.put_wrong(text, page);
        }
        Ok(())
    }

    // One tree more, or one text more.
    fn put_counted(
        &mut self,
        counted: Counted,
        text: &str,
        page: &mut Page,
    ) -> Result<(), Unanswered> {
        match counted {
            Counted::Tree => self.put_tree(text, page),
            Counted::Text => self.put_text(text, page),
        }
    }

    // A form with an operand.
    fn put_one(
        &mut self,
        counted: Counted,
        form: &str,
        operand: &str,
        page: &mut Page,
    ) -> Result<(), Unanswered> {
        let mut text = Page::new(page.alloc());
        put_with(form, operand, &mut text);
        self.put_counted(counted, text.whole()?, page)
    }

    // A form with each of the operands, which stand in lines.
    fn put_each(
        &mut self,
        counted: Counted,
        form: &str,
        operands: &str,
        page: &mut Page,
    ) -> Result<(), Unanswered> {
        for operand in operands.lines() {
            if !is_unformed(form, operand) {
                self.put_one(counted, form, operand, page)?;
            }
        }
        Ok(())
    }

    // A form with each of the operands, put there by hand.
    fn put_by_hand(
        &mut self,
        form: &str,
        operands: &str,
        page: &mut Page,
    ) -> Result<(), Unanswered> {
        let mut by_hand = Page::new(page.alloc());
        put_with(form, "‹@›", &mut by_hand);
        self.put_each(Counted::Tree, by_hand.whole()?, operands, page)
    }

    // The same with what is found of others.
    fn add(&mut self, other: Tally) {
        self.trees = self.trees.saturating_add(other.trees);
        self.gaining = self.gaining.saturating_add(other.gaining);
        self.read = self.read.saturating_add(other.read);
        self.wrong = self.wrong.saturating_add(other.wrong);
    }

    // Puts it to the end of a line.
    fn put_counts(&self, page: &mut Page) {
        let (trees, gaining, read, wrong) = (self.trees, self.gaining, self.read, self.wrong);
        write!(
            page,
            ": {trees} trees, with parentheses in {gaining} places; "
        );
        write!(page, "as texts read in {read}; {wrong} wrong\n");
    }
}

// Puts a form with an operand in the place of its `@`.
fn put_with(form: &str, operand: &str, page: &mut Page) {
    match form.split_once('@') {
        Some((front, back)) => write!(page, "{front}{operand}{back}"),
        None => page.put(form),
    }
}

// Whether no expression is such: attributes stand together, and so not behind others.
fn is_unformed(form: &str, operand: &str) -> bool {
    form.starts_with('#') && operand.starts_with('#')
}

// Puts forms with an operand in the place of the `@` of each, in lines.
fn put_lines(forms: &[&str], operand: &str, page: &mut Page) {
    for form in forms {
        put_with(form, operand, page);
        page.put("\n");
    }
}

fn put_around(page: &mut Page) {
    put_lines(FRONTS.as_slice(), "@", page);
    put_lines(BACKS.as_slice(), "@", page);
    for operator in &OPERATORS {
        write!(page, "@ {operator} y\nx {operator} @\n");
    }
}

fn put_operands(page: &mut Page) {
    put_lines(ALONE.as_slice(), "", page);
    put_lines(FRONTS.as_slice(), "z", page);
    put_lines(BACKS.as_slice(), "z", page);
    for operator in &OPERATORS {
        write!(page, "x {operator} y\n");
    }
}

// Puts a form with each of those that stand innermost in the place of its `@`, put there by hand.
fn put_around_each(form: &str, page: &mut Page) {
    for operand in &INSIDE {
        if !is_unformed(form, operand) {
            if let Some((front, back)) = form.split_once('@') {
                write!(page, "{front}‹{operand}›{back}\n");
            }
        }
    }
}

fn put_nested(page: &mut Page) {
    for form in &AROUND {
        put_around_each(form, page);
    }
}

// The lines of a list.
fn paged(alloc: Global, list: List) -> Page {
    let mut page = Page::new(alloc);
    match list {
        List::Around => put_around(&mut page),
        List::Operands => put_operands(&mut page),
        List::Braces => put_lines(&[BRACES], "@", &mut page),
        List::Paths => put_lines(PATHS.as_slice(), "", &mut page),
        List::Places => put_lines(PLACES.as_slice(), "@", &mut page),
        List::Levels => put_lines(AROUND.as_slice(), "@", &mut page),
        List::Nested => put_nested(&mut page),
    }
    page
}

// Counts a form with each of the operands, as trees, and as texts too where there are two depths.
fn count(table: Table, form: &str, operands: &str, page: &mut Page) -> Result<Tally, Unanswered> {
    let mut found = NOTHING;
    found.put_by_hand(form, operands, page)?;
    if !table.is_deep {
        found.put_each(Counted::Text, form, operands, page)?;
    }
    Ok(found)
}

// Puts a line for each of the forms with each of the operands, and counts them.
fn put_forms(
    table: Table,
    forms: &str,
    operands: &str,
    page: &mut Page,
) -> Result<Tally, Unanswered> {
    let mut all = NOTHING;
    for form in forms.lines() {
        let found = count(table, form, operands, page)?;
        put_with(form, if table.is_deep { "@ @" } else { "@" }, page);
        found.put_counts(page);
        all.add(found);
    }
    Ok(all)
}

// The same of a table.
fn put_table(table: Table, page: &mut Page) -> Result<Tally, Unanswered> {
    let forms = paged(page.alloc(), table.forms);
    let operands = paged(page.alloc(), table.operands);
    put_forms(table, forms.whole()?, operands.whole()?, page)
}

/// Puts what is found of each form with each, of each in each place of own parts, and of those of each level at three
/// depths, a line for each form and each place.
pub(crate) fn put(page: &mut Page) -> Result<(), Unanswered> {
    let mut all = NOTHING;
    for table in TABLES {
        all.add(put_table(table, page)?);
    }
    page.put("all");
    all.put_counts(page);
    Ok(())
}
