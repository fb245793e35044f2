//! What a keeper has, seen from outside: by id, the text of the head, and whether the body is sealed.
use acng_base::Text;
use std::alloc::Global;
use std::cell::RefCell;
use std::collections::BTreeMap;

/// The head and the body of an id. A sealed body has its size here, an unsealed one stands as `loose`.
#[derive(Drop)]
pub struct Stored {
    pub head: Option<Text>,
    pub sealed: Option<u64>,
    pub loose: bool,
}

/// The heads and bodies of a keeper.
#[derive(Drop)]
pub struct View {
    pub items: RefCell<BTreeMap<u64, Stored>>,
}

impl View {
    pub fn new(alloc: Global) -> View {
        View {
            items: RefCell::new(BTreeMap::new(alloc)),
        }
    }

    pub fn create(&self, id: u64) {
        let stored = Stored {
            head: None,
            sealed: None,
            loose: true,
        };
        if let Ok(mut items) = self.items.try_borrow_mut() {
            let _ = items.insert(id, stored);
        }
    }

    pub fn seal(&self, id: u64, size: u64) {
        if let Ok(mut items) = self.items.try_borrow_mut() {
            if let Some(stored) = items.get_mut(&id) {
                stored.sealed = Some(size);
                stored.loose = false;
            }
        }
    }

    pub fn put_head(&self, alloc: Global, id: u64, bytes: &[u8]) {
        let head = Text::copy(alloc, bytes).ok();
        if let Ok(mut items) = self.items.try_borrow_mut() {
            if let Some(stored) = items.get_mut(&id) {
                stored.head = head;
            }
        }
    }

    pub fn remove_head(&self, id: u64) {
        if let Ok(mut items) = self.items.try_borrow_mut() {
            if let Some(stored) = items.get_mut(&id) {
                stored.head = None;
            }
        }
    }

    pub fn remove_body(&self, id: u64) {
        if let Ok(mut items) = self.items.try_borrow_mut() {
            if let Some(stored) = items.get_mut(&id) {
                stored.sealed = None;
                stored.loose = false;
            }
        }
    }
}
