// What the program is asked for: intake [outline] [FILE].
use std::env::Args;

#[derive(Drop)]
pub struct Request {
    pub outline: bool,
    pub file: Option<String>,
}

impl Request {
    pub fn of(mut args: Args) -> Request {
        match args.nth(1) {
            Some(word) if word.as_str() == "outline" => Request {
                outline: true,
                file: args.next(),
            },
            file => Request {
                outline: false,
                file,
            },
        }
    }
}
