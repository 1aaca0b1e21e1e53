// Runs the published examples of MD5, SHA-1 and HMAC, and prints each with `ok` or what differed.
//
// MD5: RFC 1321, appendix A.5. SHA-1: the examples published with FIPS 180. HMAC: RFC 2202.
#![tactic(auto)]

use hmac::{Digest, Md5, Sha1};
use script::Hex;
use std::alloc::{AllocError, Global};
use std::io;
use tally::Tally;

// Some bytes, so many times over.
#[derive(Clone, Copy)]
struct Repeated(&'static [u8], usize);

impl Repeated {
    fn bytes(self, heap: Global) -> Result<Vec<u8>, AllocError> {
        self.0.repeat(heap, self.1)
    }
}

// A published example: how its digest is made, and what its document prints of it.
trait Example {
    fn digest<D: Digest>(&self, heap: Global) -> Result<D::Output, AllocError>;

    fn due(&self) -> &'static str;
}

// A message, and the digest that its document prints.
#[derive(Clone, Copy)]
struct DigestExample {
    message: Repeated,
    due: &'static str,
}

impl Example for DigestExample {
    fn digest<D: Digest>(&self, heap: Global) -> Result<D::Output, AllocError> {
        let message = self.message.bytes(heap)?;
        Ok(hmac::digest_of::<D>(message.as_slice()))
    }

    fn due(&self) -> &'static str {
        self.due
    }
}

// A key, a message, and the digest that RFC 2202 prints.
#[derive(Clone, Copy)]
struct HmacExample {
    key: Repeated,
    message: Repeated,
    due: &'static str,
}

impl Example for HmacExample {
    fn digest<D: Digest>(&self, heap: Global) -> Result<D::Output, AllocError> {
        let key = self.key.bytes(heap)?;
        let message = self.message.bytes(heap)?;
        Ok(hmac::hmac::<D>(key.as_slice(), message.as_slice()))
    }

    fn due(&self) -> &'static str {
        self.due
    }
}

// RFC 1321, appendix A.5.
const MD5: [DigestExample; 7] = [
    DigestExample {
        message: Repeated(b"", 1),
        due: "d41d8cd98f00b204e9800998ecf8427e",
    },
    DigestExample {
        message: Repeated(b"a", 1),
        due: "0cc175b9c0f1b6a831c399e269772661",
    },
    DigestExample {
        message: Repeated(b"abc", 1),
        due: "900150983cd24fb0d6963f7d28e17f72",
    },
    DigestExample {
        message: Repeated(b"message digest", 1),
        due: "f96b697d7cb7938d525a2f31aaf161d0",
    },
    DigestExample {
        message: Repeated(b"abcdefghijklmnopqrstuvwxyz", 1),
        due: "c3fcd3d76192e4007dfb496cca67e13b",
    },
    DigestExample {
        message: Repeated(
            b"ABCDEFGHIJKLMNOPQRSTUVWXYZabcdefghijklmnopqrstuvwxyz0123456789",
            1,
        ),
        due: "d174ab98d277d9f5a5611c2c9f419d9f",
    },
    DigestExample {
        message: Repeated(b"1234567890", 8),
        due: "57edf4a22be3c955ac49da2e2107b67a",
    },
];

// The examples published with FIPS 180: no byte, one block, two blocks, and a million bytes.
const SHA1: [DigestExample; 4] = [
    DigestExample {
        message: Repeated(b"", 1),
        due: "da39a3ee5e6b4b0d3255bfef95601890afd80709",
    },
    DigestExample {
        message: Repeated(b"abc", 1),
        due: "a9993e364706816aba3e25717850c26c9cd0d89d",
    },
    DigestExample {
        message: Repeated(
            b"abcdbcdecdefdefgefghfghighijhijkijkljklmklmnlmnomnopnopq",
            1,
        ),
        due: "84983e441c3bd26ebaae4aa1f95129e5e54670f1",
    },
    DigestExample {
        message: Repeated(b"a", 1000000),
        due: "34aa973cd4c4daa4f61eeb2bdbad27316534016f",
    },
];

// RFC 2202, clause 2.
const HMAC_MD5: [HmacExample; 7] = [
    HmacExample {
        key: Repeated(b"\x0b", 16),
        message: Repeated(b"Hi There", 1),
        due: "9294727a3638bb1c13f48ef8158bfc9d",
    },
    HmacExample {
        key: Repeated(b"Jefe", 1),
        message: Repeated(b"what do ya want for nothing?", 1),
        due: "750c783e6ab0b503eaa86e310a5db738",
    },
    HmacExample {
        key: Repeated(b"\xaa", 16),
        message: Repeated(b"\xdd", 50),
        due: "56be34521d144c88dbb8c733f0e8b3f6",
    },
    HmacExample {
        key: Repeated(
            b"\x01\x02\x03\x04\x05\x06\x07\x08\x09\x0a\x0b\x0c\x0d\x0e\x0f\x10\x11\x12\x13\x14\x15\x16\x17\x18\x19",
            1,
        ),
        message: Repeated(b"\xcd", 50),
        due: "697eaf0aca3a3aea3a75164746ffaa79",
    },
    HmacExample {
        key: Repeated(b"\x0c", 16),
        message: Repeated(b"Test With Truncation", 1),
        due: "56461ef2342edc00f9bab995690efd4c",
    },
    HmacExample {
        key: Repeated(b"\xaa", 80),
        message: Repeated(b"Test Using Larger Than Block-Size Key - Hash Key First", 1),
        due: "6b1ab7fe4bd7bf8f0b62e6ce61b9d0cd",
    },
    HmacExample {
        key: Repeated(b"\xaa", 80),
        message: Repeated(
            b"Test Using Larger Than Block-Size Key and Larger Than One Block-Size Data",
            1,
        ),
        due: "6f630fad67cda0ee1fb1f562db3aa53e",
    },
];

// RFC 2202, clause 3.
const HMAC_SHA1: [HmacExample; 7] = [
    HmacExample {
        key: Repeated(b"\x0b", 20),
        message: Repeated(b"Hi There", 1),
        due: "b617318655057264e28bc0b6fb378c8ef146be00",
    },
    HmacExample {
        key: Repeated(b"Jefe", 1),
        message: Repeated(b"what do ya want for nothing?", 1),
        due: "effcdf6ae5eb2fa2d27416d5f184df9c259a7c79",
    },
    HmacExample {
        key: Repeated(b"\xaa", 20),
        message: Repeated(b"\xdd", 50),
        due: "125d7342b9ac11cd91a39af48aa17b4f63f175d3",
    },
    HmacExample {
        key: Repeated(
            b"\x01\x02\x03\x04\x05\x06\x07\x08\x09\x0a\x0b\x0c\x0d\x0e\x0f\x10\x11\x12\x13\x14\x15\x16\x17\x18\x19",
            1,
        ),
        message: Repeated(b"\xcd", 50),
        due: "4c9007f4026250c6bc8414f9bf50c86c2d7235da",
    },
    HmacExample {
        key: Repeated(b"\x0c", 20),
        message: Repeated(b"Test With Truncation", 1),
        due: "4c1a03424b55e07fe7f27be1d58bb9324a9a5a04",
    },
    HmacExample {
        key: Repeated(b"\xaa", 80),
        message: Repeated(b"Test Using Larger Than Block-Size Key - Hash Key First", 1),
        due: "aa4ae5e15272d00e95705637ce8a3b55ed402112",
    },
    HmacExample {
        key: Repeated(b"\xaa", 80),
        message: Repeated(
            b"Test Using Larger Than Block-Size Key and Larger Than One Block-Size Data",
            1,
        ),
        due: "e8e99d0f45237d786d6bbaa7965c7808bbff1a91",
    },
];

// Makes each example's digest, and tells the tally what came out.
fn run<D: Digest, E: Example>(
    rt: &HostRuntime,
    tally: &mut Tally,
    name: &str,
    examples: &[E],
) -> io::Result<()> {
    let heap = rt.alloc();
    for (number, example) in (1..).zip(examples) {
        let digest = example.digest::<D>(heap)?;
        let found = format!(in heap; "{}", Hex(D::view(&digest)))?;
        tally.note(rt, name, number, found.as_str(), example.due())?;
    }
    Ok(())
}

fn main(rt: HostRuntime) -> io::Result<()> {
    let mut tally = Tally::new();
    run::<Md5, _>(&rt, &mut tally, "MD5", &MD5)?;
    run::<Sha1, _>(&rt, &mut tally, "SHA-1", &SHA1)?;
    run::<Md5, _>(&rt, &mut tally, "HMAC-MD5", &HMAC_MD5)?;
    run::<Sha1, _>(&rt, &mut tally, "HMAC-SHA-1", &HMAC_SHA1)?;
    println!(rt; "{tally}")
}
