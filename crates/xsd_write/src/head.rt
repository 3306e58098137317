// What a head opens, and what it closes behind its children.
ghost use Rattle.std.specs.Prelude.{◌++◌};
ghost use Rattle.text.specs.Text.{bytes};
ghost use Rattle.xsd_types.specs.Back.{text0, text1};
ghost use Rattle.xsd_written.specs.ByRows.{attribute_text, empty_text, named_text, complex_text, any_text, head_markup, close_text};
ghost use Rattle.xsd_write.specs.Texts.{as_row, named_opening, content_text};
ghost use Rattle.xsd_write.specs.Puts.{Writes};

use crate::part::Row;
use crate::put::Writer;
use xsd_types::tags;

impl Writer<'_> {
    // `opening` ends before the name's value.
    pub fn put_named(&mut self, opening: &[u8], row: Row)
        ensures { Writes (named_opening opening.now (as_row row.entry)) self.old self.new }
    {
        self.put_value(opening, row.first_text());
        self.put_value(b" type=", row.second_text());
    }

    pub fn put_element(&mut self, row: Row)
        ensures { Writes (empty_text (bytes "element") (named_text (as_row row.entry))) self.old self.new }
    {
        self.put_named(b"<xs:element name=", row);
        self.put(b"/>");
    }

    // A value, and the end of the tag that it opens.
    fn put_base(&mut self, opening: &[u8], row: Row)
        ensures { Writes (opening.now ++ (attribute_text "base" (text1 (as_row row.entry)) ++ bytes ">")) self.old self.new }
    {
        self.put(opening);
        self.put_value(b" base=", row.second_text());
        self.put(b">");
    }

    fn put_simple(&mut self, row: Row)
        ensures { Writes (bytes "<xs:simpleType" ++ (attribute_text "name" (text0 (as_row row.entry))
            ++ (bytes "><xs:restriction" ++ (attribute_text "base" (text1 (as_row row.entry)) ++ bytes ">")))) self.old self.new }
    {
        self.put_value(b"<xs:simpleType name=", row.first_text());
        self.put_base(b"><xs:restriction", row);
    }

    // "`namespace` only if present"
    fn put_namespace(&mut self, row: Row)
        ensures { Writes (any_text (as_row row.entry)) self.old self.new }
    {
        if row.numbers.a == 1 {
            self.put_value(b" namespace=", row.second_text());
        }
    }

    fn put_any(&mut self, row: Row)
        ensures { Writes (bytes "><xs:sequence><xs:any" ++ (any_text (as_row row.entry) ++ bytes "/>")) self.old self.new }
    {
        self.put(b"><xs:sequence><xs:any");
        self.put_namespace(row);
        self.put(b"/>");
    }

    fn put_content(&mut self, row: Row)
        ensures { Writes (content_text (as_row row.entry)) self.old self.new }
    {
        let tag = row.numbers.tag;
        match tag {
            tags::SEQUENCE => self.put(b"><xs:sequence>"),
            tags::CHOICE => self.put(b"><xs:choice>"),
            tags::SIMPLE_CONTENT => self.put_base(b"><xs:simpleContent><xs:extension", row),
            _ => self.put_any(row),
        }
    }

    fn put_complex(&mut self, row: Row)
        ensures { Writes (complex_text (as_row row.entry) (content_text (as_row row.entry))) self.old self.new }
    {
        self.put_value(b"<xs:complexType name=", row.first_text());
        self.put_content(row);
    }

    pub fn put_head(&mut self, row: Row)
        ensures { Writes (head_markup (as_row row.entry)) self.old self.new }
    {
        let tag = row.numbers.tag;
        match tag {
            tags::ELEMENT => self.put_element(row),
            tags::SIMPLE_TYPE => self.put_simple(row),
            _ => self.put_complex(row),
        }
    }

    // An element has closed already.
    pub fn put_close(&mut self, tag: u32)
        ensures { Writes (close_text tag) self.old self.new }
    {
        match tag {
            tags::SIMPLE_TYPE => self.put(b"</xs:restriction></xs:simpleType>"),
            tags::SEQUENCE => self.put(b"</xs:sequence></xs:complexType>"),
            tags::ANY => self.put(b"</xs:sequence></xs:complexType>"),
            tags::CHOICE => self.put(b"</xs:choice></xs:complexType>"),
            tags::SIMPLE_CONTENT => {
                self.put(b"</xs:extension></xs:simpleContent></xs:complexType>")
            }
            _ => {}
        }
    }
}
