// The model and the marking in hand, on which the cases are tried.
use engine::{Marking, Model, ModelReading};
use files::load;
use std::rt::Files;
use std::str;

#[derive(Clone, Copy)]
pub struct Hand {
    pub model: Model,
    pub marking: Marking,
}

impl Hand {
    // The model of a text and its start; of a text that is refused, the empty model and no net-token.
    pub fn of(text: &[u8]) -> Hand {
        match engine::read_model(text) {
            Ok(ModelReading { model, start }) => Hand {
                model,
                marking: start,
            },
            Err(_) => Hand {
                model: Model::empty(),
                marking: Marking::empty(),
            },
        }
    }

    // Of the text of a file.
    pub fn loaded(rt: &impl Files, path: &str) -> Hand {
        let mut buf = [0u8; 65536];
        Hand::of(load(rt, path, &mut buf))
    }

    // Of the file that a case names; a name that is not UTF-8 is no file's.
    pub fn loaded_by_name(rt: &impl Files, name: &[u8]) -> Hand {
        let Ok(path) = str::from_utf8(name) else {
            return Hand::of(b"");
        };
        Hand::loaded(rt, path)
    }
}
