use crate::boots::boot_answer;
use crate::clients::{client_answer, open_client, opened_text};
use crate::keepers::{Store, keeper_answer, new_keeper};
use crate::logs::{Log, apply_windows, log_answer, new_log};
use crate::marks::{boot_mark_answer, mark_answer};
use crate::words::{bytes_of, cut, said, text};
use bootstrap_core::Boot;
use client_switch::{Client, ClientOpen};
use std::alloc::Global;
use std::test::Fail;

/// What the rows work on. A bootstrap has the log and the keeper while it is open.
#[derive(Drop)]
pub struct Desk {
    keeper: Option<Store>,
    log: Option<Log>,
    boot: Option<Boot<Log, Store>>,
    client: Option<Client>,
    reply: Vec<u8>,
}

impl Desk {
    /// A desk with nothing on it.
    pub fn new(alloc: Global) -> Desk {
        Desk {
            keeper: None,
            log: None,
            boot: None,
            client: None,
            reply: Vec::new(alloc),
        }
    }

    /// What the call of a row answers.
    pub fn answer(&mut self, alloc: Global, row: &str) -> Result<String, Fail> {
        let (word, rest) = cut(row);
        match word {
            "new_keeper" => self.begin_keeper(alloc, rest),
            "new_log" => self.begin_log(alloc, rest),
            "keeper" => self.on_keeper(alloc, rest),
            "log" => self.on_log(alloc, rest),
            "apply" => self.on_both(alloc, rest),
            "reply" => self.begin_reply(alloc, rest),
            "open_boot" => self.open_boot(alloc),
            "boot" => self.on_boot(alloc, rest),
            "parts" => self.parts(alloc),
            "open_client" => self.begin_client(alloc, rest),
            "client" => self.on_client(alloc, rest),
            "mark" => mark_answer(alloc, rest),
            "boot_mark" => boot_mark_answer(alloc, rest),
            _ => text(alloc, "no row"),
        }
    }

    fn begin_keeper(&mut self, alloc: Global, rest: &str) -> Result<String, Fail> {
        self.keeper = Some(new_keeper(alloc, rest)?);
        text(alloc, "new")
    }

    fn begin_log(&mut self, alloc: Global, rest: &str) -> Result<String, Fail> {
        self.log = Some(new_log(alloc, rest)?);
        text(alloc, "new")
    }

    // The bytes of a reply, in hexadecimal digits and spaces.
    fn begin_reply(&mut self, alloc: Global, rest: &str) -> Result<String, Fail> {
        self.reply = bytes_of(alloc, rest)?;
        count_text(alloc, self.reply.len())
    }

    fn on_keeper(&mut self, alloc: Global, rest: &str) -> Result<String, Fail> {
        match &mut self.keeper {
            None => text(alloc, "no keeper"),
            Some(keeper) => keeper_answer(alloc, keeper, rest),
        }
    }

    fn on_log(&mut self, alloc: Global, rest: &str) -> Result<String, Fail> {
        match &mut self.log {
            None => text(alloc, "no log"),
            Some(log) => log_answer(alloc, log, rest),
        }
    }

    fn on_both(&mut self, alloc: Global, rest: &str) -> Result<String, Fail> {
        match (&mut self.log, &mut self.keeper) {
            (Some(log), Some(keeper)) => apply_windows(alloc, log, keeper, rest),
            _ => text(alloc, "no log or no keeper"),
        }
    }

    fn open_boot(&mut self, alloc: Global) -> Result<String, Fail> {
        let (Some(log), Some(keeper)) = (self.log.take(), self.keeper.take()) else {
            return text(alloc, "no log or no keeper");
        };
        match Boot::open(alloc, log, keeper) {
            Ok(boot) => self.put_boot(alloc, boot),
            Err((fault, log, keeper)) => {
                self.put_parts(log, keeper);
                said(alloc, &fault)
            }
        }
    }

    fn put_boot(&mut self, alloc: Global, boot: Boot<Log, Store>) -> Result<String, Fail> {
        self.boot = Some(boot);
        text(alloc, "open")
    }

    fn put_parts(&mut self, log: Log, keeper: Store) {
        self.log = Some(log);
        self.keeper = Some(keeper);
    }

    fn on_boot(&mut self, alloc: Global, rest: &str) -> Result<String, Fail> {
        match &mut self.boot {
            None => text(alloc, "no bootstrap"),
            Some(boot) => boot_answer(alloc, boot, &self.reply, rest),
        }
    }

    // Takes the log and the keeper out of the bootstrap.
    fn parts(&mut self, alloc: Global) -> Result<String, Fail> {
        let Some(boot) = self.boot.take() else {
            return text(alloc, "no bootstrap");
        };
        let (log, keeper) = boot.parts();
        self.put_parts(log, keeper);
        text(alloc, "log and keeper")
    }

    fn begin_client(&mut self, alloc: Global, rest: &str) -> Result<String, Fail> {
        let Some(keeper) = &mut self.keeper else {
            return text(alloc, "no keeper");
        };
        let opened = open_client(alloc, keeper, rest)?;
        self.put_client(alloc, opened)
    }

    fn put_client(
        &mut self,
        alloc: Global,
        opened: Result<Client, ClientOpen>,
    ) -> Result<String, Fail> {
        let told = opened_text(alloc, &opened);
        self.client = opened.ok();
        told
    }

    fn on_client(&mut self, alloc: Global, rest: &str) -> Result<String, Fail> {
        match (&mut self.client, &mut self.keeper) {
            (Some(client), Some(keeper)) => client_answer(alloc, client, keeper, &self.reply, rest),
            _ => text(alloc, "no client or no keeper"),
        }
    }
}

fn count_text(alloc: Global, count: usize) -> Result<String, Fail> {
    Ok(format!(in alloc; "{count} bytes")?)
}
