//! A mailbox as plain data, without nodes.

ghost use Rattle.std.specs.Prelude.{◌≡◌, IfOk};

use crate::mailbox::Mailbox;
use pf_errors::NoMemory;
use pf_nodes::{MailList, Pool};
use pf_terms::Term;
use std::alloc::Global;
use std::marker::Model;

/// The messages of a mailbox, its mark and its count of tests.
#[derive(Drop)]
pub struct PackedMail {
    messages: Vec<Term>,
    mark: usize,
    tests: u64,
}

impl Model for PackedMail {
    ghost use Rattle.std.specs.Prelude.{◌≤◌, length};
    ghost use Rattle.pf_mailbox.specs.MailView.{MailView, coded_mail_view};

    ghost Value = { MailView };

    ghost coded = { coded_mail_view };

    ghost use Rattle.pf_mailbox.specs.Inner.{plain_mailbox};

    ghost view = { λ p. plain_mailbox p.messages.items p.mark p.tests };

    ghost invariant = { λ p. p.mark ≤ length p.messages.items };
}

impl Mailbox {
    /// The mailbox as plain data. Its nodes go to the pool, or are freed once the pool is full.
    pub fn pack(mut self, pool: &mut Pool<Term>, alloc: Global) -> Result<PackedMail, NoMemory>
        ensures { IfOk result (λ p. p ≡ self) }
    {
        let mark = self.list.mark();
        self.list.reset_mark();
        let mut messages = Vec::with_capacity(alloc, self.list.len())?;
        while !self.list.is_empty() {
            messages.push(self.list.take_marked(pool))?;
        }
        Ok(PackedMail {
            messages,
            mark,
            tests: self.tests,
        })
    }

    /// The mailbox again, over nodes of the pool, or new ones where the pool has none.
    pub fn unpack(
        pool: &mut Pool<Term>,
        alloc: Global,
        packed: PackedMail,
    ) -> Result<Mailbox, NoMemory>
        ensures { IfOk result (λ m. m ≡ packed) }
    {
        let PackedMail {
            messages,
            mark,
            tests,
        } = packed;
        let mut list = MailList::new(alloc);
        for message in messages {
            if list.push_back(pool, message).is_err() {
                return Err(NoMemory);
            }
            if list.len() <= mark {
                list.pass();
            }
        }
        Ok(Mailbox { list, tests })
    }
}

/// What a run that is parked needs: mailboxes, packed or not, and the pool of their nodes may go to another thread.
fn crosses_threads(mailboxes: &Vec<Mailbox>, packed: &Vec<PackedMail>, pool: &Pool<Term>) {
    needs_send(mailboxes);
    needs_send(packed);
    needs_send(pool);
}

fn needs_send<T: Send>(_value: &T) {}
